// Multi-lock: `acquire_index_locks`, all keys or none.
// A refusal rolls what was taken back from the end. (a) It stays an array with a count beside it: document 01
// "passes [[u32; 2]; 64] by value with a count", and there is no heap.
// Functions with a `requires` are parts: calls have tested the shape, and a part tests nothing twice.
// Parts are no calls of document 01, public ones neither: only the layers here call them (tests/layers.sh), and each
// caller proves their `requires`.
#![tactic(auto)]

pub mod checks;
mod free;
pub mod keys;
mod rollback;

ghost use Rattle.std.specs.Prelude.{◌≡◌, length};
ghost use Rattle.model.specs.Calls.{acquire_locks_of};
ghost use Rattle.multilock.specs.Fine.{LocksFine, locks_once_of};

use checks::locks_check;
use keys::lock_keys;
use types::{Head, ScriptReply};

// ---- the call

// What a call does whose checks are fine.
#[tactic(auto, unfolding(crate::specs::Fine::locks_once_of))]
fn locks_once(
    head: Head,
    table: &mut [u32],
    health: &mut [u8],
    registry: &[u32],
    script: &[u32],
    place: usize,
    held: &[u32],
    keys: &[u32],
    grants: &mut [u32],
) -> ScriptReply
    requires { LocksFine head (length table.old) (length health.old) (length script.now) place
        registry.now keys.now (length grants.old) }
    ensures { (result, (table.new, (health.new, grants.new)))
        ≡ locks_once_of head table.old health.old registry.now
        script.now place held.now keys.now grants.old }
{
    let scope = foreign::scope_of(head, script);
    let start = bucket::starting(head, place);
    let n = keys.len() / 2;
    let ended = lock_keys(
        scope, start, table, health, script, held, registry, keys, n, grants,
    );
    foreign::script_reply(head, ended.run, ended.answer)
}

// The keys in the order given, all or none. A refusal at a position gives back all that was taken, last first, and
// leaves the grant buffer as it was; 11 has the reason of that key's last attempt. On a grant the buffer has cell,
// serial and boot number of each key, in key order.
#[tactic(auto, unfolding(model::specs::Calls::acquire_locks_of, crate::specs::Fine::locks_once_of))]
pub fn acquire_index_locks(
    head: Head,
    table: &mut [u32],
    health: &mut [u8],
    registry: &[u32],
    script: &[u32],
    place: usize,
    held: &[u32],
    keys: &[u32],
    grants: &mut [u32],
) -> ScriptReply
    ensures { (result, (table.new, (health.new, grants.new)))
        ≡ (acquire_locks_of head table.old health.old registry.now
        script.now place held.now keys.now grants.old).seen }
{
    match locks_check(
        head, table, health, registry, script, place, held, keys, grants,
    ) {
        Err(refusal) => foreign::refuse_at_once(head, place, refusal),
        Ok(()) => locks_once(
            head, table, health, registry, script, place, held, keys, grants,
        ),
    }
}
