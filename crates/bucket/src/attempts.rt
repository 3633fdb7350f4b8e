// One attempt by key: the cell that the key names, and the lock of it.
// Functions with a `requires` are parts: calls have tested the shape, and a part tests nothing twice.
// Nothing here is reached from outside the crate.
ghost use Rattle.std.specs.Prelude.{◌≡◌, [], ◌∷◌, ◌+◌, ◌*◌, ◌<◌, ◌≤◌, length};
ghost use Rattle.model.specs.Lock.{run_of, tried_of, find_of, attempt_at, is_busy, last_of};
ghost use Rattle.types.specs.declared.Outcome.TheVariants as outcome;
ghost use Rattle.foreign.specs.Model.{setting_of, RoomIn};
ghost use Rattle.bucket.specs.Bounds.{try_most};
ghost use Rattle.bucket.specs.Laws.{RunBound};
ghost use Rattle.bucket.specs.Model.{Fit, Lands, without_reason_of, reason_apart_of, attempted_of};

use crate::{Attempted, Target};
use foreign::{Holds, Scope};
use types::{Locked, Outcome, Reason, Refusal, Run, Tried};

// A key's cell: its header is looked at, then the header's health, then the bucket.
// The definition reads the header from a registry: here it is the only one there.
#[tactic(auto, unfolding(model::specs::Lock::find_of))]
pub fn find(scope: Scope, health: &[u8], target: Target) -> Result<u32, Refusal>
    requires { Fit scope.headers scope.buckets (length health.now) }
    ensures { result
        ≡ find_of scope.headers scope.buckets health.now (target.header ∷ []) 0 target.bucket }
{
    let header = target.header;
    if scope.headers <= header {
        return Err(Refusal::BadHeader(header));
    }
    if health[header as usize] != 0 {
        return Err(Refusal::Poisoned(header));
    }
    if scope.buckets <= target.bucket {
        return Err(Refusal::InvalidBucket(target.bucket));
    }
    Ok(header * scope.buckets + target.bucket)
}

// The run after an attempt that found no cell, and after one that tried it.
pub fn missed(run: Run, refusal: Refusal) -> Tried
    requires { run.attempts ≤ try_most }
    ensures { result
        ≡ tried_of (run_of run.flow (run.attempts + 1) run.boundaries run.yields) (outcome.Refused refusal) }
{
    Tried {
        run: Run {
            attempts: run.attempts + 1,
            ..run
        },
        outcome: Outcome::Refused(refusal),
    }
}

pub fn counted(run: Run, locked: Locked) -> Tried
    requires { (run.attempts ≤ try_most) × ((run.boundaries ≤ try_most) × (locked.boundaries ≤ 3)) }
    ensures { result
        ≡ tried_of (run_of locked.flow (run.attempts + 1) (run.boundaries + locked.boundaries) run.yields)
        locked.answer }
{
    Tried {
        run: Run {
            flow: locked.flow,
            attempts: run.attempts + 1,
            boundaries: run.boundaries + locked.boundaries,
            yields: run.yields,
        },
        outcome: locked.answer,
    }
}

// One attempt of a call that makes no other, at what its key was found to name.
pub fn attempt_once(
    scope: Scope,
    run: Run,
    table: &mut [u32],
    health: &mut [u8],
    script: &[u32],
    holds: &Holds<'_>,
    found: Result<u32, Refusal>,
) -> Tried
    requires { RoomIn scope (length table.old) (length health.old) holds.now.n (length script.now)
        × (RunBound scope.steps try_most run × Lands scope health.old found) }
    ensures { (result, (table.new, health.new))
        ≡ (attempt_at found (setting_of scope script.now holds.now.held.now holds.now.taken.now holds.now.n)
        scope.buckets run table.old health.old).seen }
{
    match found {
        Err(refusal) => missed(run, refusal),
        Ok(cell) => {
            let locked = lock::lock(scope, run.flow, table, health, script, holds, cell);
            counted(run, locked)
        }
    }
}

// An outcome without its reason: Busy is always the same.
fn without_reason(outcome: Outcome) -> Outcome
    ensures { result ≡ without_reason_of outcome }
{
    match outcome {
        Outcome::Busy(_) => Outcome::Busy(Reason::Before),
        Outcome::Granted(_) | Outcome::Refused(_) => outcome,
    }
}

pub fn is_busy(outcome: Outcome) -> bool
    ensures { result ≡ is_busy outcome }
{
    matches!(outcome, Outcome::Busy(_))
}

// The reason of the last Busy attempt, after one more that came to this.
pub fn last_of(last: Reason, outcome: Outcome) -> Reason
    ensures { result ≡ last_of last outcome }
{
    match outcome {
        Outcome::Busy(why) => why,
        Outcome::Granted(_) | Outcome::Refused(_) => last,
    }
}

// The reason set aside. Each result of `attempt` is set aside where it is made: it never is one outcome first.
#[tactic(auto, unfolding(crate::specs::Model::reason_apart_of))]
fn reason_apart(tried: Tried) -> Attempted
    ensures { result ≡ reason_apart_of tried }
{
    Attempted {
        run: tried.run,
        outcome: without_reason(tried.outcome),
        why: last_of(Reason::Before, tried.outcome),
    }
}

// The same for the retry loop, which it is private to: past the script's end an attempt is a quiet one. The header's
// health was read just before, so the quiet lock of a healthy header is the one.
// What a call of `lock` is given is copied where the call is made: a quiet attempt then stores no copy.
#[tactic(auto, unfolding(crate::specs::Model::attempted_of))]
pub fn attempt(
    scope: Scope,
    run: Run,
    table: &mut [u32],
    health: &mut [u8],
    script: &[u32],
    holds: &Holds<'_>,
    found: Result<u32, Refusal>,
) -> Attempted
    requires { RoomIn scope (length table.old) (length health.old) holds.now.n (length script.now)
        × (RunBound scope.steps try_most run × Lands scope health.old found) }
    ensures { (result, (table.new, health.new))
        ≡ attempted_of (attempt_at found
        (setting_of scope script.now holds.now.held.now holds.now.taken.now holds.now.n)
        scope.buckets run table.old health.old).seen }
{
    match found {
        Err(refusal) => reason_apart(missed(run, refusal)),
        Ok(cell) => {
            let flow = run.flow;
            if flow.place < scope.steps {
                let here = scope;
                let from = run.flow;
                let locked = lock::lock(here, from, table, health, script, holds, cell);
                return reason_apart(counted(run, locked));
            }
            let quiet = lock::quiet_take(scope.head(flow.next), flow, table, cell);
            reason_apart(Tried {
                run: Run {
                    flow: quiet.flow,
                    attempts: run.attempts + 1,
                    boundaries: run.boundaries + quiet.boundaries,
                    yields: run.yields,
                },
                outcome: lock::quiet_outcome(cell, quiet.answer),
            })
        }
    }
}
