// Attempts past the script's end. Every boundary is quiet there, and nothing changes between two attempts: the key's
// cell is found once, and no room for leases is made.
// (b) Apart from `retries`: one loop for both made room for leases and found the cell anew at each attempt.
// Functions with a `requires` are parts: calls have tested the shape, and a part tests nothing twice.
// Nothing here is reached from outside the crate.
ghost use Rattle.std.specs.Prelude.{◌≡◌, ◌+◌, ◌*◌, ◌<◌, length};
ghost use Rattle.model.specs.Lock.{none_yet};
ghost use Rattle.bucket.specs.Bounds.{call_most, try_most};
ghost use Rattle.bucket.specs.Quiet.{Few, Within, quiet_attempt_of, quiet_pause_of, quiet_retry_of};
ghost use Rattle.bucket.specs.Quiet.{quiet_once_at, quiet_retry_at};

use crate::attempts::{counted, is_busy, last_of, missed};
use types::{Head, Outcome, Reason, Refusal, Run, Tried};

// An attempt on a cell of a healthy header.
#[tactic(auto, unfolding(crate::specs::Quiet::quiet_attempt_of))]
fn quiet_attempt(head: Head, run: Run, table: &mut [u32], cell: u32) -> Tried
    requires { (3 * cell + 2 < length table.old) × Few try_most run }
    ensures { (result, table.new) ≡ quiet_attempt_of run table.old cell }
{
    let locked = lock::quiet_lock(head, run.flow, table, cell);
    counted(run, locked)
}

// The pause after Busy attempt number i.
#[tactic(auto, unfolding(crate::specs::Quiet::quiet_pause_of))]
fn quiet_pause(i: usize, run: Run) -> Run
    requires { Few (try_most + 3) run }
    ensures { result ≡ quiet_pause_of i run }
{
    if i % 64 == 63 {
        return Run {
            boundaries: run.boundaries + 1 + 1,
            yields: run.yields + 1,
            ..run
        };
    }
    Run {
        boundaries: run.boundaries + 1,
        ..run
    }
}

// Attempts 0 to 4,095 on it.
fn quiet_retry(head: Head, start: Run, table: &mut [u32], cell: u32) -> Tried
    requires { (3 * cell + 2 < length table.old) × Few call_most start }
    ensures { (result, table.new) ≡ quiet_retry_of 4096 0 none_yet start table.old cell }
{
    let mut run = start;
    let mut last = Reason::Before;
    for i in 0..4096 {
        let tried = quiet_attempt(head, run, table, cell);
        if is_busy(tried.outcome) {
            run = quiet_pause(i, tried.run);
            last = last_of(last, tried.outcome);
        } else {
            return tried;
        }
    }
    Tried {
        run,
        outcome: Outcome::Busy(last),
    }
}

// At what a key was found to name: one attempt, and all.
pub fn quiet_once_at(head: Head, run: Run, table: &mut [u32], found: Result<u32, Refusal>) -> Tried
    requires { Few call_most run × Within (length table.old) found }
    ensures { (result, table.new) ≡ quiet_once_at found run table.old }
{
    match found {
        Err(refusal) => missed(run, refusal),
        Ok(cell) => quiet_attempt(head, run, table, cell),
    }
}

pub fn quiet_retry_at(head: Head, run: Run, table: &mut [u32], found: Result<u32, Refusal>) -> Tried
    requires { Few call_most run × Within (length table.old) found }
    ensures { (result, table.new) ≡ quiet_retry_at 4096 found run table.old }
{
    match found {
        Err(refusal) => missed(run, refusal),
        Ok(cell) => quiet_retry(head, run, table, cell),
    }
}
