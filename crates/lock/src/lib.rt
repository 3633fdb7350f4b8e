// try_lock: three boundaries, the waiters read before and after, the health after, and a late release whose serial
// stays spent.
// Functions with a `requires` are parts: calls have tested the shape, and a part tests nothing twice.
// Parts are no calls of document 01, public ones neither: only the layers here call them (tests/layers.sh), and each
// caller proves their `requires`.
#![tactic(auto)]

ghost use Rattle.std.specs.Prelude.{◌≡◌, ◌+◌, ◌*◌, ◌<◌, length};
ghost use Rattle.model.specs.Arena.{holds_of};
ghost use Rattle.model.specs.Refusals.{first};
ghost use Rattle.model.specs.Checks.{lock_rules};
ghost use Rattle.model.specs.Lock.{locked_of, late_stage_of, second_stage_of, lock_of};
ghost use Rattle.model.specs.Calls.{try_lock_of};
ghost use Rattle.foreign.specs.Model.{in_scope, setting_of, RoomIn};
ghost use Rattle.foreign.specs.Laws.{FlowBound};
ghost use Rattle.lock.specs.Model.{CellIn, gave_up, boundaries_for, lock_once_of};
ghost use Rattle.lock.specs.Model.{quiet_outcome_of, quiet_take_of, quiet_lock_of};
ghost use Rattle.lock.specs.Fine.{LockFine};

use foreign::{Holds, Scope};
use types::{Flow, Head, Hold, Locked, Outcome, Reason, Refusal, Run, ScriptReply, Take};

// The new lease released after the third boundary. Its serial stays spent.
#[tactic(auto, unfolding(crate::specs::Model::gave_up))]
fn give_up(flow: Flow, table: &mut [u32], cell: u32, answer: Outcome) -> Locked
    requires { 3 * cell + 2 < length table.old }
    ensures { (result, table.new) ≡ gave_up flow table.old cell answer }
{
    arena::release(table, cell);
    Locked {
        flow,
        boundaries: 3,
        answer,
    }
}

// The third boundary, then the health of the cell's header, then the second look at the waiters.
#[tactic(auto, unfolding(model::specs::Lock::late_stage_of))]
fn late_stage(
    scope: Scope,
    flow: Flow,
    table: &mut [u32],
    health: &mut [u8],
    script: &[u32],
    holds: &Holds<'_>,
    own: Hold,
) -> Locked
    requires { RoomIn scope (length table.old) (length health.old) holds.now.n (length script.now)
        × (FlowBound scope.steps flow × CellIn scope own.cell) }
    ensures { (result, (table.new, health.new))
        ≡ (late_stage_of (setting_of scope script.now holds.now.held.now holds.now.taken.now holds.now.n)
        scope.buckets flow table.old health.old own.cell own.serial).seen }
{
    let after = foreign::protecting_boundary(scope, flow, table, health, script, holds, own);
    let header = own.cell / scope.buckets;
    if health[header as usize] != 0 {
        return give_up(
            after,
            table,
            own.cell,
            Outcome::Refused(Refusal::Poisoned(header)),
        );
    }
    if arena::waiters_at(table, own.cell) == 0 {
        return Locked {
            flow: after,
            boundaries: 3,
            answer: Outcome::Granted(own),
        };
    }
    let busy = Outcome::Busy(Reason::After(own.serial));
    give_up(after, table, own.cell, busy)
}

// A try_lock whose compare-and-set gave no lease ends there, after two boundaries.
fn stopped(flow: Flow, answer: Outcome) -> Locked
    ensures { result ≡ locked_of flow 2 answer }
{
    Locked {
        flow,
        boundaries: 2,
        answer,
    }
}

// The second boundary, and the compare-and-set.
#[tactic(auto, unfolding(model::specs::Lock::second_stage_of))]
fn second_stage(
    scope: Scope,
    flow: Flow,
    table: &mut [u32],
    health: &mut [u8],
    script: &[u32],
    holds: &Holds<'_>,
    cell: u32,
) -> Locked
    requires { RoomIn scope (length table.old) (length health.old) holds.now.n (length script.now)
        × (FlowBound scope.steps flow × CellIn scope cell) }
    ensures { (result, (table.new, health.new))
        ≡ (second_stage_of (setting_of scope script.now holds.now.held.now holds.now.taken.now holds.now.n)
        scope.buckets flow table.old health.old cell).seen }
{
    let after = foreign::boundary(scope, flow, table, health, script, holds);
    let claim = lease::claim_at(scope.head(after.next), table, cell);
    let on = Flow {
        next: claim.head.next,
        ..after
    };
    match claim.answer {
        Take::Granted(serial) => {
            let own = Hold { cell, serial };
            late_stage(scope, on, table, health, script, holds, own)
        }
        Take::Busy(owner) => stopped(on, Outcome::Busy(Reason::Held(owner))),
        Take::Damaged => stopped(on, Outcome::Refused(Refusal::Damaged(cell))),
        Take::Spent => stopped(on, Outcome::Refused(Refusal::SerialsSpent(cell))),
    }
}

// One try_lock: the first boundary, and the first look at the waiters.
#[tactic(auto, unfolding(model::specs::Lock::lock_of))]
pub fn lock(
    scope: Scope,
    flow: Flow,
    table: &mut [u32],
    health: &mut [u8],
    script: &[u32],
    holds: &Holds<'_>,
    cell: u32,
) -> Locked
    requires { RoomIn scope (length table.old) (length health.old) holds.now.n (length script.now)
        × (FlowBound scope.steps flow × CellIn scope cell) }
    ensures { (result, (table.new, health.new))
        ≡ (lock_of (setting_of scope script.now holds.now.held.now holds.now.taken.now holds.now.n)
        scope.buckets flow table.old health.old cell).seen }
{
    let after = foreign::boundary(scope, flow, table, health, script, holds);
    if arena::waiters_at(table, cell) == 0 {
        return second_stage(scope, after, table, health, script, holds, cell);
    }
    Locked {
        flow: after,
        boundaries: 1,
        answer: Outcome::Busy(Reason::Before),
    }
}

// How many boundaries a try_lock has when its compare-and-set answers this.
fn boundaries_for(answer: Take) -> usize
    ensures { result ≡ boundaries_for answer }
{
    match answer {
        Take::Granted(_) => 3,
        Take::Busy(_) | Take::Damaged | Take::Spent => 2,
    }
}

// What one try_lock answers where every boundary is quiet: its compare-and-set's answer, or, where somebody waits, that
// there was none; and what it counts.
#[derive(Clone, Copy, Debug, PartialEq, Eq)]
pub struct Quiet {
    pub flow: Flow,
    pub boundaries: usize,
    pub answer: Option<Take>,
}

// What an attempt on a cell comes to that answers so.
pub fn quiet_outcome(cell: u32, answer: Option<Take>) -> Outcome
    ensures { result ≡ quiet_outcome_of cell answer }
{
    match answer {
        Some(take) => lease::outcome(cell, take),
        None => Outcome::Busy(Reason::Before),
    }
}

// One try_lock past the script's end, where every boundary is quiet, of a cell whose header is healthy: it still is
// after the third. The answer is three numbers, where an outcome is five.
#[tactic(auto, unfolding(crate::specs::Model::quiet_take_of))]
pub fn quiet_take(head: Head, flow: Flow, table: &mut [u32], cell: u32) -> Quiet
    requires { 3 * cell + 2 < length table.old }
    ensures { (result, table.new) ≡ quiet_take_of flow table.old cell }
{
    if arena::waiters_at(table, cell) == 0 {
        let claim = lease::claim_at(head.spent_to(flow.next), table, cell);
        return Quiet {
            flow: Flow {
                next: claim.head.next,
                ..flow
            },
            boundaries: boundaries_for(claim.answer),
            answer: Some(claim.answer),
        };
    }
    Quiet {
        flow,
        boundaries: 1,
        answer: None,
    }
}

// The same, as a lock answers.
pub fn quiet_lock(head: Head, flow: Flow, table: &mut [u32], cell: u32) -> Locked
    requires { 3 * cell + 2 < length table.old }
    ensures { (result, table.new) ≡ quiet_lock_of flow table.old cell }
{
    let quiet = quiet_take(head, flow, table, cell);
    Locked {
        flow: quiet.flow,
        boundaries: quiet.boundaries,
        answer: quiet_outcome(cell, quiet.answer),
    }
}

// ---- the calls

#[tactic(auto, using(laws::specs::Checks::fronts))]
fn lock_check(
    head: Head,
    table: &[u32],
    health: &[u8],
    script: &[u32],
    place: usize,
    held: &[u32],
    cell: u32,
) -> Result<(), Refusal>
    ensures { result
        ≡ first (lock_rules head table.now health.now
        script.now place held.now cell) }
{
    foreign::script_check(head, table, health, script, place, held)?;
    lease::cell_fault(head, cell)
}

// The try_lock of a call that has taken nothing. Past the script's end it is the quiet one where the cell's header is
// healthy, and then no room for leases is made.
fn lock_alone(
    scope: Scope,
    flow: Flow,
    table: &mut [u32],
    health: &mut [u8],
    script: &[u32],
    held: &[u32],
    cell: u32,
) -> Locked
    requires { RoomIn scope (length table.old) (length health.old) 0 (length script.now)
        × (FlowBound scope.steps flow × CellIn scope cell) }
    ensures { (result, (table.new, health.new))
        ≡ (lock_of (in_scope scope script.now (holds_of held.now))
        scope.buckets flow table.old health.old cell).seen }
{
    if scope.steps <= flow.place {
        let header = cell / scope.buckets;
        if health[header as usize] == 0 {
            return quiet_lock(scope.head(flow.next), flow, table, cell);
        }
    }
    let taken = [[0; 2]; 64];
    let holds = Holds {
        held,
        taken: &taken,
        n: 0,
    };
    lock(scope, flow, table, health, script, &holds, cell)
}

// One try_lock of a call whose checks are fine.
#[tactic(auto, unfolding(crate::specs::Model::lock_once_of))]
fn lock_once(
    head: Head,
    table: &mut [u32],
    health: &mut [u8],
    script: &[u32],
    place: usize,
    held: &[u32],
    cell: u32,
) -> ScriptReply
    requires { LockFine head (length table.old) (length health.old) (length script.now) place cell }
    ensures { (result, (table.new, health.new))
        ≡ lock_once_of head table.old health.old
        script.now place held.now cell }
{
    let flow = Flow {
        next: head.next,
        place,
        dropped: 0,
    };
    let scope = foreign::scope_of(head, script);
    let locked = lock_alone(scope, flow, table, health, script, held, cell);
    let run = Run {
        flow: locked.flow,
        attempts: 1,
        boundaries: locked.boundaries,
        yields: 0,
    };
    foreign::script_reply(head, run, lease::answer_of(head.boot, locked.answer))
}

// One attempt by cell, with up to three boundaries: Busy where somebody waits, or holds it, then with the owner's
// serial. After the third boundary the health of the cell's header is read: 7 if it is poisoned, the lease given up,
// its cell free, its serial spent. A lease given up because somebody waits then is Busy with its serial, which is spent
// too, and its cell is free.
#[tactic(auto, unfolding(model::specs::Calls::try_lock_of, crate::specs::Model::lock_once_of))]
pub fn try_lock(
    head: Head,
    table: &mut [u32],
    health: &mut [u8],
    script: &[u32],
    place: usize,
    held: &[u32],
    cell: u32,
) -> ScriptReply
    ensures { (result, (table.new, health.new))
        ≡ (try_lock_of head table.old health.old
        script.now place held.now cell).seen }
{
    match lock_check(head, table, health, script, place, held, cell) {
        Err(refusal) => foreign::refuse_at_once(head, place, refusal),
        Ok(()) => lock_once(head, table, health, script, place, held, cell),
    }
}

// The same, 7 with it, since document 01 names both (a): the leases of its held list stay live, whatever the script
// says.
pub fn other_mutex_preserves_leases(
    head: Head,
    table: &mut [u32],
    health: &mut [u8],
    script: &[u32],
    place: usize,
    held: &[u32],
    cell: u32,
) -> ScriptReply
    ensures { (result, (table.new, health.new))
        ≡ (try_lock_of head table.old health.old
        script.now place held.now cell).seen }
{
    try_lock(head, table, health, script, place, held, cell)
}
