// Bucket resolution, one attempt by key, and the retry of 4,096 attempts.
// Functions with a `requires` are parts: calls have tested the shape, and a part tests nothing twice.
// Parts are no calls of document 01, public ones neither: only the layers here call them (tests/layers.sh), and each
// caller proves their `requires`.
#![tactic(auto)]

mod attempts;
pub mod checks;
mod quiet;
pub mod retries;

ghost use Rattle.std.specs.Prelude.{◌≡◌, ◌<◌, length};
ghost use Rattle.model.specs.Arena.{holds_of};
ghost use Rattle.model.specs.Lock.{attempt_at, none_yet, retry_of, settled};
ghost use Rattle.model.specs.Calls.{starting, transactional_of, acquire_bucket_of};
ghost use Rattle.foreign.specs.Model.{in_scope, RoomIn};
ghost use Rattle.bucket.specs.Bounds.{call_most};
ghost use Rattle.bucket.specs.Laws.{RunBound};
ghost use Rattle.bucket.specs.Model.{KeyFits, Lands, target_of};
ghost use Rattle.bucket.specs.Fine.{BucketFine, once_by_key_of, retry_by_key_of};

use attempts::{attempt_once, find};
use checks::bucket_check;
use foreign::{Holds, Scope};
use quiet::{quiet_once_at, quiet_retry_at};
use retries::retry;
use types::{Flow, Head, Outcome, Reason, Refusal, Run, ScriptReply, Tried};

// A key as a caller names it: a binding, which is a place in the registry, and a bucket.
#[derive(Clone, Copy, Debug, PartialEq, Eq)]
struct Key {
    binding: u32,
    bucket: u32,
}

// What a key stands for, as long as the registry is lent: the header that it has there, and the bucket.
#[derive(Clone, Copy, Debug, PartialEq, Eq)]
struct Target {
    header: u32,
    bucket: u32,
}

fn target_of(registry: &[u32], key: Key) -> Target
    requires { key.binding < length registry.now }
    ensures { result ≡ target_of registry.now key.binding key.bucket }
{
    Target {
        header: registry[key.binding as usize],
        bucket: key.bucket,
    }
}

// An attempt of the retry loop. Why it was Busy stands beside what it came to: the loop tests the one and keeps the
// other, and both stay in few words.
// (d) An `Outcome` with its reason inside would be taken apart at each turn of the loop.
#[derive(Clone, Copy, Debug, PartialEq, Eq)]
struct Attempted {
    run: Run,
    outcome: Outcome,
    why: Reason,
}

// ---- the calls
// (d) One attempt and all 4,096 have two of each part: they differ in the call in the middle and in its definition, and
// one part for both would be handed that call, its promise and its law.

// A run that has made no step.
pub fn starting(head: Head, place: usize) -> Run
    ensures { result ≡ starting head place }
{
    Run {
        flow: Flow {
            next: head.next,
            place,
            dropped: 0,
        },
        attempts: 0,
        boundaries: 0,
        yields: 0,
    }
}

// After 4,096 Busy attempts: SerializationFailure, with the reason of the last.
pub fn settle(outcome: Outcome) -> Outcome
    ensures { result ≡ settled outcome }
{
    match outcome {
        Outcome::Busy(why) => Outcome::Refused(Refusal::SerializationFailure(why)),
        Outcome::Granted(_) | Outcome::Refused(_) => outcome,
    }
}

// One attempt of a call that has taken nothing, at what its key was found to name. Past the script's end it is the
// quiet one, and no room for leases is made; so with all attempts.
fn attempt_alone(
    scope: Scope,
    run: Run,
    table: &mut [u32],
    health: &mut [u8],
    script: &[u32],
    held: &[u32],
    found: Result<u32, Refusal>,
) -> Tried
    requires { RoomIn scope (length table.old) (length health.old) 0 (length script.now)
        × (RunBound scope.steps call_most run × Lands scope health.old found) }
    ensures { (result, (table.new, health.new))
        ≡ (attempt_at found (in_scope scope script.now (holds_of held.now))
        scope.buckets run table.old health.old).seen }
{
    if scope.steps <= run.flow.place {
        return quiet_once_at(scope.head(run.flow.next), run, table, found);
    }
    let taken = [[0; 2]; 64];
    let holds = Holds {
        held,
        taken: &taken,
        n: 0,
    };
    attempt_once(scope, run, table, health, script, &holds, found)
}

fn retry_alone(
    scope: Scope,
    run: Run,
    table: &mut [u32],
    health: &mut [u8],
    registry: &[u32],
    script: &[u32],
    held: &[u32],
    key: Key,
) -> Tried
    requires { KeyFits scope (length table.old) (length health.old) 0 (length script.now)
        (length registry.now) key.binding × RunBound scope.steps call_most run }
    ensures { (result, (table.new, health.new))
        ≡ (retry_of 4096 0 none_yet (in_scope scope script.now (holds_of held.now))
        scope.buckets registry.now key.binding key.bucket
        run table.old health.old).seen }
{
    if scope.steps <= run.flow.place {
        let found = find(scope, health, target_of(registry, key));
        return quiet_retry_at(scope.head(run.flow.next), run, table, found);
    }
    let taken = [[0; 2]; 64];
    let holds = Holds {
        held,
        taken: &taken,
        n: 0,
    };
    retry(
        scope,
        run,
        table,
        health,
        script,
        &holds,
        registry,
        key.binding,
        key.bucket,
    )
}

// One attempt of a call whose checks are fine.
#[tactic(auto, unfolding(crate::specs::Fine::once_by_key_of))]
fn once_by_key(
    head: Head,
    table: &mut [u32],
    health: &mut [u8],
    registry: &[u32],
    script: &[u32],
    place: usize,
    held: &[u32],
    key: Key,
) -> ScriptReply
    requires { BucketFine head (length table.old) (length health.old) (length registry.now)
        (length script.now) place key.binding }
    ensures { (result, (table.new, health.new))
        ≡ once_by_key_of head table.old health.old
        registry.now script.now place held.now key.binding key.bucket }
{
    let scope = foreign::scope_of(head, script);
    let start = starting(head, place);
    let found = find(scope, health, target_of(registry, key));
    let tried = attempt_alone(scope, start, table, health, script, held, found);
    let answer = lease::answer_of(head.boot, tried.outcome);
    foreign::script_reply(head, tried.run, answer)
}

// All attempts of a call whose checks are fine.
#[tactic(auto, unfolding(crate::specs::Fine::retry_by_key_of))]
fn retry_by_key(
    head: Head,
    table: &mut [u32],
    health: &mut [u8],
    registry: &[u32],
    script: &[u32],
    place: usize,
    held: &[u32],
    key: Key,
) -> ScriptReply
    requires { BucketFine head (length table.old) (length health.old) (length registry.now)
        (length script.now) place key.binding }
    ensures { (result, (table.new, health.new))
        ≡ retry_by_key_of head table.old health.old
        registry.now script.now place held.now key.binding key.bucket }
{
    let scope = foreign::scope_of(head, script);
    let start = starting(head, place);
    let tried = retry_alone(scope, start, table, health, registry, script, held, key);
    let answer = lease::answer_of(head.boot, settle(tried.outcome));
    foreign::script_reply(head, tried.run, answer)
}

// One attempt by key: the header from the registry (6 if there is none), its health (7 if poisoned), the bucket (8 if
// there is none), then `try_lock`. These three count the attempt and change nothing. `try_lock` reads the health again
// after its third boundary: 7 there gives the lease up, its cell free, its serial spent.
#[tactic(auto, unfolding(model::specs::Calls::transactional_of, crate::specs::Fine::once_by_key_of))]
pub fn transactional_try_lock_bucket(
    head: Head,
    table: &mut [u32],
    health: &mut [u8],
    registry: &[u32],
    script: &[u32],
    place: usize,
    held: &[u32],
    binding: u32,
    bucket: u32,
) -> ScriptReply
    ensures { (result, (table.new, health.new))
        ≡ (transactional_of head table.old health.old
        registry.now script.now place held.now binding bucket).seen }
{
    match bucket_check(head, table, health, registry, script, place, held, binding) {
        Err(refusal) => foreign::refuse_at_once(head, place, refusal),
        Ok(()) => {
            let key = Key { binding, bucket };
            once_by_key(head, table, health, registry, script, place, held, key)
        }
    }
}

// Attempts 0 to 4,095 by key, with a boundary after each Busy one and a yield after every 64th. A grant or a refusal
// ends it at once, 7 after an attempt's third boundary too: the lease is given up and its serial stays spent. 4,096
// Busy attempts are refused with 11 and the reason of the last, and nothing is held.
#[tactic(auto, unfolding(model::specs::Calls::acquire_bucket_of, crate::specs::Fine::retry_by_key_of))]
pub fn acquire_index_bucket(
    head: Head,
    table: &mut [u32],
    health: &mut [u8],
    registry: &[u32],
    script: &[u32],
    place: usize,
    held: &[u32],
    binding: u32,
    bucket: u32,
) -> ScriptReply
    ensures { (result, (table.new, health.new))
        ≡ (acquire_bucket_of head table.old health.old
        registry.now script.now place held.now binding bucket).seen }
{
    match bucket_check(head, table, health, registry, script, place, held, binding) {
        Err(refusal) => foreign::refuse_at_once(head, place, refusal),
        Ok(()) => {
            let key = Key { binding, bucket };
            retry_by_key(head, table, health, registry, script, place, held, key)
        }
    }
}
