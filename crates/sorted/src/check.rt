// The checks of the keys that go by position: "header before bucket".
// Functions with a `requires` are parts: calls have tested the shape, and a part tests nothing twice.
// Nothing here is reached from outside the crate.
ghost use Rattle.std.specs.Prelude.{◌≡◌, ℕ, ◌<◌, length};
ghost use Rattle.model.specs.Refusals.{first};
ghost use Rattle.model.specs.Checks.{count_in};
ghost use Rattle.model.specs.Lock.{binding_at};
ghost use Rattle.model.specs.Sorted.{first_key};
ghost use Rattle.sorted.specs.Order.{pair_rules};

use types::{Head, Refusal};

// 6 and 8 of one key.
#[tactic(auto, unfolding(model::specs::Refusals::first))]
fn pair_fault(head: Head, header: u32, bucket: u32) -> Result<(), Refusal>
    ensures { result ≡ first (pair_rules head header bucket) }
{
    if head.headers <= header {
        return Err(Refusal::BadHeader(header));
    }
    if head.buckets <= bucket {
        return Err(Refusal::InvalidBucket(bucket));
    }
    Ok(())
}

// The first position that has one of them.
pub fn first_key_fault(head: Head, registry: &[u32], keys: &[u32]) -> Result<(), (Refusal, usize)>
    requires { (p : ℕ) → p < count_in keys.now → binding_at keys.now p < length registry.now }
    ensures { result ≡ first_key (count_in keys.now) 0 head registry.now keys.now }
{
    for p in 0..keys.len() / 2 {
        let binding = keys[2 * p] as usize;
        if let Err(refusal) = pair_fault(head, registry[binding], keys[2 * p + 1]) {
            return Err((refusal, p));
        }
    }
    Ok(())
}
