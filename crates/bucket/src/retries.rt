// The retry: attempts 0 to 4,095, and the pause after each Busy one.
// Functions with a `requires` are parts: calls have tested the shape, and a part tests nothing twice.
// Parts are no calls of document 01, public ones neither: only the layers here call them (tests/layers.sh), and each
// caller proves their `requires`.
ghost use Rattle.std.specs.Prelude.{◌≡◌, [], ◌∷◌, ◌+◌, ◌<◌, length};
ghost use Rattle.model.specs.Lock.{tried_of, spin_of, pause_of, none_yet, retry_of};
ghost use Rattle.foreign.specs.Model.{setting_of, RoomIn};
ghost use Rattle.bucket.specs.Bounds.{call_most, try_most};
ghost use Rattle.bucket.specs.Laws.{RunBound};
ghost use Rattle.bucket.specs.Model.{KeyFits, again_of};

use crate::attempts::{attempt, find, is_busy};
use crate::{Attempted, Target};
use foreign::{Holds, Scope};
use types::{Outcome, Reason, Run, Tried};

// After each Busy attempt: a boundary and a spin.
#[tactic(auto, unfolding(model::specs::Lock::spin_of))]
fn spin(
    scope: Scope,
    run: Run,
    table: &mut [u32],
    health: &mut [u8],
    script: &[u32],
    holds: &Holds<'_>,
) -> Run
    requires { RoomIn scope (length table.old) (length health.old) holds.now.n (length script.now)
        × RunBound scope.steps (try_most + 4) run }
    ensures { (result, (table.new, health.new))
        ≡ (spin_of (setting_of scope script.now holds.now.held.now holds.now.taken.now holds.now.n)
        run table.old health.old).seen }
{
    let flow = foreign::boundary(scope, run.flow, table, health, script, holds);
    Run {
        flow,
        boundaries: run.boundaries + 1,
        ..run
    }
}

// After a Busy attempt whose number has remainder 63 by 64, a boundary and a yield come before that.
#[tactic(auto, unfolding(model::specs::Lock::pause_of))]
fn pause(
    i: usize,
    scope: Scope,
    run: Run,
    table: &mut [u32],
    health: &mut [u8],
    script: &[u32],
    holds: &Holds<'_>,
) -> Run
    requires { RoomIn scope (length table.old) (length health.old) holds.now.n (length script.now)
        × RunBound scope.steps (try_most + 3) run }
    ensures { (result, (table.new, health.new))
        ≡ (pause_of (setting_of scope script.now holds.now.held.now holds.now.taken.now holds.now.n) i
        run table.old health.old).seen }
{
    if i % 64 == 63 {
        let flow = foreign::boundary(scope, run.flow, table, health, script, holds);
        let yielded = Run {
            flow,
            boundaries: run.boundaries + 1,
            yields: run.yields + 1,
            ..run
        };
        return spin(scope, yielded, table, health, script, holds);
    }
    spin(scope, run, table, health, script, holds)
}

// Attempt number i, and, if it was Busy, the pause after it.
#[tactic(auto, unfolding(crate::specs::Model::again_of, model::specs::Lock::attempt_of))]
fn again(
    i: usize,
    scope: Scope,
    run: Run,
    table: &mut [u32],
    health: &mut [u8],
    script: &[u32],
    holds: &Holds<'_>,
    target: Target,
) -> Attempted
    requires { KeyFits scope (length table.old) (length health.old) holds.now.n (length script.now) 1 0
        × RunBound scope.steps try_most run }
    ensures { (result, (table.new, health.new))
        ≡ again_of i (setting_of scope script.now holds.now.held.now holds.now.taken.now holds.now.n)
        scope.buckets (target.header ∷ []) 0 target.bucket
        run table.old health.old }
{
    let found = find(scope, health, target);
    let attempted = attempt(scope, run, table, health, script, holds, found);
    if is_busy(attempted.outcome) {
        let run = pause(i, scope, attempted.run, table, health, script, holds);
        return Attempted { run, ..attempted };
    }
    attempted
}

// The attempt that concluded it: it was not Busy, so there is no reason beside it.
fn concluded(attempted: Attempted) -> Tried
    ensures { result ≡ tried_of attempted.run attempted.outcome }
{
    Tried {
        run: attempted.run,
        outcome: attempted.outcome,
    }
}

// Attempts 0 to 4,095; a grant or a refusal ends it at once. After them all it is Busy, for the reason of the last.
// The key comes as two numbers: a call that stays a call would store it as a struct first.
pub fn retry(
    scope: Scope,
    start: Run,
    table: &mut [u32],
    health: &mut [u8],
    script: &[u32],
    holds: &Holds<'_>,
    registry: &[u32],
    binding: u32,
    bucket: u32,
) -> Tried
    requires { KeyFits scope (length table.old) (length health.old) holds.now.n (length script.now)
        (length registry.now) binding × RunBound scope.steps call_most start }
    ensures { (result, (table.new, health.new))
        ≡ (retry_of 4096 0 none_yet (setting_of scope script.now holds.now.held.now holds.now.taken.now holds.now.n)
        scope.buckets registry.now binding bucket
        start table.old health.old).seen }
{
    let header = registry[binding as usize];
    let target = Target { header, bucket };
    let mut run = start;
    let mut last = Reason::Before;
    for i in 0..4096 {
        let attempted = again(i, scope, run, table, health, script, holds, target);
        if is_busy(attempted.outcome) {
            run = attempted.run;
            last = attempted.why;
        } else {
            return concluded(attempted);
        }
    }
    Tried {
        run,
        outcome: Outcome::Busy(last),
    }
}
