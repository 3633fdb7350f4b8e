// Giving back: `release_all`, last first with a boundary after each release, and its parts, on which multi-lock's
// rollback stands too.
// Functions with a `requires` are parts: calls have tested the shape, and a part tests nothing twice.
// Parts are no calls of document 01, public ones neither: only the layers here call them (tests/layers.sh), and each
// caller proves their `requires`.
#![tactic(auto)]

ghost use Rattle.std.specs.Prelude.{◌≡◌, true, [], ◌∷◌, ◌*◌, ◌/◌, ◌<◌, ◌≤◌, length, take};
ghost use Rattle.model.specs.Arena.{holds_of, is_in, leases_of, shape_fits};
ghost use Rattle.model.specs.Refusals.{first};
ghost use Rattle.model.specs.Checks.{bad_script, not_releasable, release_rules};
ghost use Rattle.model.specs.Lock.{give_back_of};
ghost use Rattle.model.specs.Calls.{release_all_of};
ghost use Rattle.foreign.specs.Model.{setting_of, in_scope, RoomIn};
ghost use Rattle.bucket.specs.Bounds.{call_most, try_most};
ghost use Rattle.bucket.specs.Laws.{RunBound};
ghost use Rattle.release.specs.Repeats.{Spares};
ghost use Rattle.release.specs.Release.{Inside, ReleaseFine, leases_rules, give_one_of, release_once_of};

use foreign::{Holds, Scope};
use types::{Answer, Head, Hold, Refusal, Run, ScriptReply};

// ---- giving back

// One release, and the boundary after it, which still protects these. A part of `give_back` and of the rollback.
#[tactic(auto, unfolding(crate::specs::Release::give_one_of))]
pub fn give_one(
    scope: Scope,
    run: Run,
    table: &mut [u32],
    health: &mut [u8],
    script: &[u32],
    holds: &Holds<'_>,
    cell: u32,
) -> Run
    requires { RoomIn scope (length table.old) (length health.old) holds.now.n (length script.now)
        × (RunBound scope.steps try_most run × (cell < scope.cells)) }
    ensures { (result, (table.new, health.new))
        ≡ give_one_of (setting_of scope script.now holds.now.held.now holds.now.taken.now holds.now.n)
        run table.old health.old cell }
{
    arena::release(table, cell);
    let flow = foreign::boundary(scope, run.flow, table, health, script, holds);
    Run {
        flow,
        boundaries: run.boundaries + 1,
        ..run
    }
}

// The leases of a list from the last on; those before the one released stay protected, so that no step frees them
// first. A part.
// (d) The rollback of `multilock` gives pairs back and is not this loop: a list of words has no array of pairs.
pub fn give_back(
    scope: Scope,
    start: Run,
    table: &mut [u32],
    health: &mut [u8],
    script: &[u32],
    leases: &[u32],
) -> Run
    requires { RoomIn scope (length table.old) (length health.old) 0 (length script.now)
        × (RunBound scope.steps call_most start × ((length leases.now / 3 ≤ 64) × Inside scope.cells
        leases.now)) }
    ensures { (result, (table.new, health.new))
        ≡ (give_back_of (length leases.now / 3) (in_scope scope script.now [])
        (holds_of leases.now) start table.old health.old).seen }
{
    let none = [[0; 2]; 64];
    let mut run = start;
    for k in (0..leases.len() / 3).rev() {
        let e = 3 * k;
        let before = Holds {
            held: &leases[..e],
            taken: &none,
            n: 0,
        };
        run = give_one(scope, run, table, health, script, &before, leases[e]);
    }
    run
}

// ---- the checks, in the order of document 01's table

// Whether a lease stands among the first i of a list: without a mark it does not, and none of them is looked at.
fn is_repeated<const MARKS: usize>(
    leases: &[u32],
    i: usize,
    marks: &[u8; MARKS],
    hold: Hold,
) -> bool
    requires { (3 * i ≤ length leases.now) × (0 < MARKS) × (MARKS ≤ 256)
        × Spares MARKS marks.now (holds_of (take (3 * i) leases.now)) }
    ensures { result ≡ is_in hold (holds_of (take (3 * i) leases.now)) }
{
    if marks[hold.cell as usize % MARKS] == 0 {
        return false;
    }
    lease::is_in(&leases[..3 * i], hold)
}

// 16, 12 and 14, tested together by position, with a mark for each lease passed, by the remainder of its cell number.
// (a) A mark stays a byte: law `Spares` has it as a number.
fn marked_fault<const MARKS: usize>(
    head: Head,
    table: &[u32],
    leases: &[u32],
) -> Result<(), Refusal>
    requires { (0 < MARKS) × (MARKS ≤ 256) × (shape_fits head (length table.now) ≡ true) }
    ensures { result ≡ first (not_releasable head table.now 0 [] (leases_of leases.now)) }
{
    let mut marks = [0; MARKS];
    for i in 0..leases.len() / 3 {
        let given = lease::lease_in(leases, i);
        if head.is_stale(given) {
            return Err(Refusal::StaleBoot(i));
        }
        let cell = given.cell;
        let serial = given.serial;
        if !lease::is_live(head, table, cell, serial) {
            return Err(Refusal::NotHeld(i));
        }
        if is_repeated(leases, i, &marks, Hold { cell, serial }) {
            return Err(Refusal::Repeated(i));
        }
        marks[cell as usize % MARKS] = 1;
    }
    Ok(())
}

// The same: a list of up to three leases has one mark for all, so that each is looked for in those before it. A longer
// one has as many as a prime, so that neither the cells of one bucket nor those of one header share a mark.
fn releasable_fault(head: Head, table: &[u32], leases: &[u32]) -> Result<(), Refusal>
    requires { shape_fits head (length table.now) ≡ true }
    ensures { result ≡ first (not_releasable head table.now 0 [] (leases_of leases.now)) }
{
    if leases.len() < 12 {
        return marked_fault::<1>(head, table, leases);
    }
    marked_fault::<251>(head, table, leases)
}

// 4, and then 16, 12 and 14.
#[tactic(auto, unfolding(model::specs::Refusals::first, crate::specs::Release::leases_rules))]
fn leases_fault(head: Head, table: &[u32], leases: &[u32]) -> Result<(), Refusal>
    requires { shape_fits head (length table.now) ≡ true }
    ensures { result ≡ first (leases_rules head table.now leases.now) }
{
    if leases.len() % 3 != 0 || 64 < leases.len() / 3 {
        return Err(Refusal::TooMany);
    }
    releasable_fault(head, table, leases)
}

// 2, and then those.
#[tactic(auto, using(laws::specs::Checks::fronts))]
fn release_lists_fault(
    head: Head,
    table: &[u32],
    script: &[u32],
    place: usize,
    leases: &[u32],
) -> Result<(), Refusal>
    requires { shape_fits head (length table.now) ≡ true }
    ensures { result
        ≡ first (bad_script script.now place
        ∷ leases_rules head table.now leases.now) }
{
    foreign::script_fault(script, place)?;
    leases_fault(head, table, leases)
}

fn release_check(
    head: Head,
    table: &[u32],
    health: &[u8],
    script: &[u32],
    place: usize,
    leases: &[u32],
) -> Result<(), Refusal>
    ensures { result
        ≡ first (release_rules head table.now health.now
        script.now place leases.now) }
{
    arena::arena_fault(head, table, health)?;
    release_lists_fault(head, table, script, place, leases)
}

// ---- the calls

// All releases of a call whose checks are fine.
#[tactic(auto, unfolding(crate::specs::Release::release_once_of))]
fn release_once(
    head: Head,
    table: &mut [u32],
    health: &mut [u8],
    script: &[u32],
    place: usize,
    leases: &[u32],
) -> ScriptReply
    requires { ReleaseFine head (length table.old) (length health.old) (length script.now) place
        leases.now }
    ensures { (result, (table.new, health.new))
        ≡ release_once_of head table.old health.old
        script.now place leases.now }
{
    let scope = foreign::scope_of(head, script);
    let start = bucket::starting(head, place);
    let run = give_back(scope, start, table, health, script, leases);
    foreign::script_reply(head, run, Answer::Done)
}

// Releases a list of leases, last first, with a boundary after each. Any lease with another boot number (16), that is
// not live (12) or that stands earlier in the list (14) refuses the whole list, nothing released.
#[tactic(auto, unfolding(model::specs::Calls::release_all_of, crate::specs::Release::release_once_of))]
pub fn release_all(
    head: Head,
    table: &mut [u32],
    health: &mut [u8],
    script: &[u32],
    place: usize,
    leases: &[u32],
) -> ScriptReply
    ensures { (result, (table.new, health.new))
        ≡ (release_all_of head table.old health.old
        script.now place leases.now).seen }
{
    match release_check(head, table, health, script, place, leases) {
        Err(refusal) => foreign::refuse_at_once(head, place, refusal),
        Ok(()) => release_once(head, table, health, script, place, leases),
    }
}
