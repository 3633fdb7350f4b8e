// The checks of multi-lock, in the order of document 01's table.
// Crate `sorted` begins with the same checks.
ghost use Rattle.std.specs.Prelude.{◌≡◌, [], ◌∷◌, ◌+◌, ◌*◌, ◌<◌};
ghost use Rattle.model.specs.Refusals.{first};
ghost use Rattle.model.specs.Checks.{count_in, too_many_keys, bad_bindings, locks_rules};

use types::{Head, Refusal};

// 4: keys odd, too many with the held leases, or a buffer that is not three words a key.
#[tactic(auto, unfolding(model::specs::Refusals::first))]
fn keys_fault(held: &[u32], keys: &[u32], grants: &[u32]) -> Result<(), Refusal>
    ensures { result ≡ first (too_many_keys held.now keys.now grants.now ∷ []) }
{
    let n = keys.len() / 2;
    if keys.len() % 2 != 0 || 64 < held.len() / 3 + n || grants.len() != 3 * n {
        return Err(Refusal::TooMany);
    }
    Ok(())
}

// 5: the first key whose binding is past the registry.
#[tactic(auto, using(laws::specs::Checks::fronts))]
fn bindings_fault(registry: &[u32], keys: &[u32]) -> Result<(), Refusal>
    ensures { result
        ≡ first (bad_bindings (count_in keys.now) 0 registry.now keys.now) }
{
    for i in 0..keys.len() / 2 {
        bucket::checks::binding_fault(registry, i, keys[2 * i])?;
    }
    Ok(())
}

// 4, and then 5.
#[tactic(auto, using(laws::specs::Checks::fronts))]
fn all_keys_fault(
    registry: &[u32],
    held: &[u32],
    keys: &[u32],
    grants: &[u32],
) -> Result<(), Refusal>
    ensures { result
        ≡ first (too_many_keys held.now keys.now grants.now
        ∷ bad_bindings (count_in keys.now) 0 registry.now keys.now) }
{
    keys_fault(held, keys, grants)?;
    bindings_fault(registry, keys)
}

// All of them.
#[tactic(auto, using(laws::specs::Checks::fronts))]
pub fn locks_check(
    head: Head,
    table: &[u32],
    health: &[u8],
    registry: &[u32],
    script: &[u32],
    place: usize,
    held: &[u32],
    keys: &[u32],
    grants: &[u32],
) -> Result<(), Refusal>
    ensures { result
        ≡ first (locks_rules head table.now health.now registry.now
        script.now place held.now keys.now grants.now) }
{
    bucket::checks::key_fault(head, table, health, registry, script, place, held)?;
    all_keys_fault(registry, held, keys, grants)
}
