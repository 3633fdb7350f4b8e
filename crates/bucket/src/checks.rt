// The checks of calls by key, in the order of document 01's table.
// Functions with a `requires` are parts: calls have tested the shape, and a part tests nothing twice.
// Parts are no calls of document 01, public ones neither: only the layers here call them (tests/layers.sh), and each
// caller proves their `requires`.
ghost use Rattle.std.specs.Prelude.{◌≡◌, true, [], ◌∷◌, ◌<◌, length};
ghost use Rattle.model.specs.Arena.{shape_fits};
ghost use Rattle.model.specs.Refusals.{first};
ghost use Rattle.model.specs.Checks.{bad_registry, bad_binding, bucket_rules};
ghost use Rattle.bucket.specs.Fine.{key_rules, list_rules};

use types::{Head, Refusal};

#[tactic(auto, unfolding(model::specs::Refusals::first, model::specs::Arena::registry_fits))]
fn registry_fault(registry: &[u32]) -> Result<(), Refusal>
    ensures { result ≡ first (bad_registry registry.now ∷ []) }
{
    if 64 < registry.len() {
        return Err(Refusal::BadShape);
    }
    Ok(())
}

#[tactic(auto, using(laws::specs::Checks::fronts))]
fn lists_fault(
    head: Head,
    table: &[u32],
    registry: &[u32],
    script: &[u32],
    place: usize,
    held: &[u32],
) -> Result<(), Refusal>
    requires { shape_fits head (length table.now) ≡ true }
    ensures { result
        ≡ first (list_rules head table.now
        registry.now script.now place held.now) }
{
    registry_fault(registry)?;
    foreign::lists_fault(head, table, script, place, held)
}

// The checks that every call by key makes first.
#[tactic(auto, using(laws::specs::Checks::fronts))]
pub fn key_fault(
    head: Head,
    table: &[u32],
    health: &[u8],
    registry: &[u32],
    script: &[u32],
    place: usize,
    held: &[u32],
) -> Result<(), Refusal>
    ensures { result
        ≡ first (key_rules head table.now health.now
        registry.now script.now place held.now) }
{
    arena::arena_fault(head, table, health)?;
    lists_fault(head, table, registry, script, place, held)
}

// 5, of the key at a position.
#[tactic(auto, unfolding(model::specs::Refusals::first))]
pub fn binding_fault(registry: &[u32], position: usize, binding: u32) -> Result<(), Refusal>
    ensures { result ≡ first (bad_binding registry.now position binding ∷ []) }
{
    if registry.len() <= binding as usize {
        return Err(Refusal::BadBinding(position));
    }
    Ok(())
}

#[tactic(auto, using(laws::specs::Checks::fronts))]
pub fn bucket_check(
    head: Head,
    table: &[u32],
    health: &[u8],
    registry: &[u32],
    script: &[u32],
    place: usize,
    held: &[u32],
    binding: u32,
) -> Result<(), Refusal>
    ensures { result
        ≡ first (bucket_rules head table.now health.now
        registry.now script.now place held.now binding) }
{
    key_fault(head, table, health, registry, script, place, held)?;
    binding_fault(registry, 0, binding)
}
