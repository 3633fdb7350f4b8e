// The keys in the order given, and the grant buffer.
// Functions with a `requires` are parts: calls have tested the shape, and a part tests nothing twice.
// Crate `sorted` calls `lock_keys` too.
ghost use Rattle.std.specs.Prelude.{◌≡◌, [], ◌+◌, ◌*◌, ◌<◌, ◌≤◌, length};
ghost use Rattle.model.specs.Arena.{holds_of, words_of};
ghost use Rattle.model.specs.Foreign.{protecting};
ghost use Rattle.model.specs.Lock.{none_yet, retry_of, binding_at, bucket_at, locks_of};
ghost use Rattle.foreign.specs.Model.{pairs_of, in_scope};
ghost use Rattle.bucket.specs.Bounds.{call_most};
ghost use Rattle.bucket.specs.Laws.{RunBound};
ghost use Rattle.multilock.specs.Locks.{Bound};

use crate::free::{free_first, freed};
use crate::rollback::roll_back;
use foreign::{Holds, Scope};
use types::{Answer, Ended, Outcome, Refusal, Run, Tried};

// The buffer holds cell, serial and boot number for each key, in key order.
#[tactic(auto, unfolding(model::specs::Arena::words_of, foreign::specs::Model::pairs_of))]
fn grant(taken: [[u32; 2]; 64], n: usize, boot: u32, grants: &mut [u32])
    requires { (n ≤ 64) × (length grants.old ≡ 3 * n) }
    ensures { grants.new ≡ words_of boot (pairs_of n 0 taken) }
{
    for i in 0..n {
        grants[3 * i] = taken[i][0];
        grants[3 * i + 1] = taken[i][1];
        grants[3 * i + 2] = boot;
    }
}

// All attempts for the key that comes next, with the leases taken so far protected.
#[tactic(auto, unfolding(foreign::specs::Model::guards_of))]
fn try_key(
    scope: Scope,
    run: Run,
    table: &mut [u32],
    health: &mut [u8],
    script: &[u32],
    holds: &Holds<'_>,
    registry: &[u32],
    keys: &[u32],
) -> Tried
    requires { Bound scope (length table.old) (length health.old) (length script.now) registry.now keys.now
        × (RunBound scope.steps call_most run × ((holds.now.n < 64) × (2 * holds.now.n + 1 < length keys.now))) }
    ensures { (result, (table.new, health.new))
        ≡ (retry_of 4096 0 none_yet (protecting (in_scope scope script.now (holds_of holds.now.held.now))
        (pairs_of holds.now.n 0 holds.now.taken.now)) scope.buckets registry.now
        (binding_at keys.now holds.now.n) (bucket_at keys.now holds.now.n)
        run table.old health.old).seen }
{
    let p = holds.n;
    let binding = keys[2 * p];
    let bucket = keys[2 * p + 1];
    bucket::retries::retry(
        scope, run, table, health, script, holds, registry, binding, bucket,
    )
}

// The keys in the order given; all of them, or none. The first ones that are free at once need no retry.
// (a) `n` stands beside the keys: `locks_of` of `model` counts it down, and `sorted` calls with fewer keys than it has.
pub fn lock_keys(
    scope: Scope,
    start: Run,
    table: &mut [u32],
    health: &mut [u8],
    script: &[u32],
    held: &[u32],
    registry: &[u32],
    keys: &[u32],
    n: usize,
    grants: &mut [u32],
) -> Ended
    requires { Bound scope (length table.old) (length health.old) (length script.now) registry.now keys.now
        × (RunBound scope.steps 0 start × ((n ≤ 64) × ((2 * n ≤ length keys.now)
        × (length grants.old ≡ 3 * n)))) }
    ensures { (result, (table.new, (health.new, grants.new)))
        ≡ (locks_of n 0 (in_scope scope script.now (holds_of held.now)) scope.buckets scope.boot
        registry.now keys.now []
        start table.old health.old grants.old).seen }
{
    let mut taken = [[0; 2]; 64];
    let free = free_first(scope, start, table, health, registry, keys, n, &mut taken);
    let mut run = freed(start, free);
    for p in free..n {
        let before = Holds {
            held,
            taken: &taken,
            n: p,
        };
        let tried = try_key(scope, run, table, health, script, &before, registry, keys);
        let after = tried.run;
        match tried.outcome {
            Outcome::Granted(lease) => {
                taken[p] = [lease.cell, lease.serial];
                run = after;
            }
            Outcome::Busy(why) => {
                let busy = Refusal::SerializationFailure(why);
                return roll_back(scope, after, table, health, script, held, taken, p, busy);
            }
            Outcome::Refused(refusal) => {
                return roll_back(scope, after, table, health, script, held, taken, p, refusal);
            }
        }
    }
    grant(taken, n, scope.boot, grants);
    Ended {
        run,
        answer: Answer::AllGranted,
    }
}
