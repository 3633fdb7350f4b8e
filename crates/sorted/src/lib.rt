// Multi-lock with keys in any order, and doubles (document 02, L4): `acquire_sorted_locks`.
// The keys are resolved to cells and sorted in arrays of the call's own; then multi-lock's own parts lock the sorted
// keys, and each key is handed the lease of its cell.
// Functions with a `requires` are parts: calls have tested the shape, and a part tests nothing twice.
#![tactic(auto)]

mod back;
mod check;
mod marks;
mod order;

ghost use Rattle.std.specs.Prelude.{◌≡◌, length};
ghost use Rattle.model.specs.Sorted.{refused_key_at_once, sorted_locks_of, acquire_sorted_of};
ghost use Rattle.multilock.specs.Fine.{LocksFine};
ghost use Rattle.sorted.specs.Order.{KeysFine};
ghost use Rattle.sorted.specs.Steps.{checked_of};

use back::finish;
use check::first_key_fault;
use order::order;
use types::{Answer, Counts, Head, Refusal, ScriptReply};

// A refusal at a position, before any step.
// (d) Like `refuse_at_once` of `foreign`, with a position, which its answer has no room for.
fn refuse_key_at_once(head: Head, place: usize, refusal: Refusal, p: usize) -> ScriptReply
    ensures { result ≡ refused_key_at_once head place refusal p }
{
    ScriptReply {
        head,
        place,
        counts: Counts {
            attempts: 0,
            boundaries: 0,
            yields: 0,
            dropped: 0,
        },
        answer: Answer::RefusedAt(refusal, p),
    }
}

// Room for the words of 64 keys, or leases. It is made apart, so that its words are not met one by one.
fn room<const N: usize>() -> [u32; N]
    ensures { length result ≡ N }
{
    [0; N]
}

// What a call does whose checks are fine.
fn sorted_once(
    head: Head,
    table: &mut [u32],
    health: &mut [u8],
    registry: &[u32],
    script: &[u32],
    place: usize,
    held: &[u32],
    keys: &[u32],
    grants: &mut [u32],
) -> ScriptReply
    requires { LocksFine head (length table.old) (length health.old) (length script.now) place
        registry.now keys.now (length grants.old) × KeysFine head registry.now keys.now }
    ensures { (result, (table.new, (health.new, grants.new)))
        ≡ (sorted_locks_of head table.old health.old registry.now
        script.now place held.now keys.now grants.old).seen }
{
    let n = keys.len() / 2;
    let mut asked = room::<128>();
    let mut sorted = room::<128>();
    let mut chosen = room::<128>();
    let mut leases = room::<192>();
    let m = order(head, registry, keys, &mut asked, &mut sorted, &mut chosen);
    let words = 2 * m;
    let granted = 3 * m;
    let scope = foreign::scope_of(head, script);
    let start = bucket::starting(head, place);
    let ended = multilock::keys::lock_keys(
        scope,
        start,
        table,
        health,
        script,
        held,
        registry,
        &chosen[..words],
        m,
        &mut leases[..granted],
    );
    finish(
        head,
        ended,
        &asked[..n],
        &sorted[..m],
        &leases[..granted],
        grants,
    )
}

// The checks by position, and then the work.
fn sorted_checked(
    head: Head,
    table: &mut [u32],
    health: &mut [u8],
    registry: &[u32],
    script: &[u32],
    place: usize,
    held: &[u32],
    keys: &[u32],
    grants: &mut [u32],
) -> ScriptReply
    requires { LocksFine head (length table.old) (length health.old) (length script.now) place
        registry.now keys.now (length grants.old) }
    ensures { (result, (table.new, (health.new, grants.new)))
        ≡ (checked_of head table.old health.old registry.now
        script.now place held.now keys.now grants.old).seen }
{
    match first_key_fault(head, registry, keys) {
        Err((refusal, p)) => refuse_key_at_once(head, place, refusal, p),
        Ok(()) => sorted_once(
            head, table, health, registry, script, place, held, keys, grants,
        ),
    }
}

// ---- the call

// Keys in any order, all or none, each distinct cell locked once, in rising order. On a grant the buffer has cell,
// serial and boot number for each key, in the caller's order; keys of one cell share one lease, which `release_all`
// takes once. A bad header or bucket is refused before any attempt, at its position; a later refusal carries the first
// position asking for that cell, gives back all that was taken, and leaves the buffer as it was.
#[tactic(auto, unfolding(model::specs::Sorted::acquire_sorted_of))]
pub fn acquire_sorted_locks(
    head: Head,
    table: &mut [u32],
    health: &mut [u8],
    registry: &[u32],
    script: &[u32],
    place: usize,
    held: &[u32],
    keys: &[u32],
    grants: &mut [u32],
) -> ScriptReply
    ensures { (result, (table.new, (health.new, grants.new)))
        ≡ (acquire_sorted_of head table.old health.old registry.now
        script.now place held.now keys.now grants.old).seen }
{
    match multilock::checks::locks_check(
        head, table, health, registry, script, place, held, keys, grants,
    ) {
        Err(refusal) => foreign::refuse_at_once(head, place, refusal),
        Ok(()) => sorted_checked(
            head, table, health, registry, script, place, held, keys, grants,
        ),
    }
}
