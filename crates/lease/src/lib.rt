// The calls of document 01 that take no script: by cell, and by lease.
// Functions with a `requires` are parts: calls have tested the shape, and a part tests nothing twice.
// Parts are no calls of document 01, public ones neither: only the layers here call them (tests/layers.sh), and each
// caller proves their `requires`.
#![tactic(auto)]

ghost use Rattle.std.specs.Prelude.{◌≡◌, true, [], ◌∷◌, ◌+◌, ◌*◌, ◌/◌, ◌<◌, ◌≤◌, length, drop};
ghost use Rattle.model.specs.Arena.{cells_of, hold_of, holds_of, leases_of, set_cell, shape_fits, is_live, same_hold};
ghost use Rattle.model.specs.Arena.{is_in};
ghost use Rattle.model.specs.Refusals.{first};
ghost use Rattle.model.specs.Lock.{outcome_of, answer_of};
ghost use Rattle.model.specs.Checks.{cell_rules, lease_rules, held_cell_rules, held_lease_rules, bad_held};
ghost use Rattle.model.specs.Checks.{bad_shape, not_live, bad_cell, stale_boot, not_held, is_protected};
ghost use Rattle.model.specs.Calls.{acquire_of, try_acquire_of, drop_lease_of, read_permission_of};
ghost use Rattle.model.specs.Calls.{competing_acquire_of};
ghost use Rattle.model.specs.Calls.{release_then_handoff_of, foreign_release_of, acquire_preserving_of};
ghost use Rattle.model.specs.Calls.{drop_preserving_of};
ghost use Rattle.laws.specs.Checks.{lease_in};
ghost use Rattle.lease.specs.Model.{claim_at_of, claim_free_of, claim_reply_of};
ghost use Rattle.lease.specs.Drop.{drop_behind_of, drop_unprotected_of};

use types::{Answer, Head, Hold, Lease, Outcome, Reason, Refusal, Reply, State, Take};

// What a compare-and-set hands back: the changed head, and its answer.
#[derive(Clone, Copy)]
pub struct Claim {
    pub head: Head,
    pub answer: Take,
}

// ---- one compare-and-set

// Of a cell that is free: the head issues the next serial, if one remains.
// (d) That a cell lies in the table is asked by each part, as in `arena`.
#[tactic(auto, unfolding(crate::specs::Model::claim_free_of))]
fn claim_free(head: Head, table: &mut [u32], cell: u32) -> Claim
    requires { 3 * cell + 2 < length table.old }
    ensures { (result, table.new) ≡ claim_free_of head table.old cell }
{
    let issue = head.issue();
    match issue.serial {
        Some(next) => {
            arena::set_cell(table, cell, 1, next);
            Claim {
                head: issue.head,
                answer: Take::Granted(next),
            }
        }
        None => Claim {
            head: issue.head,
            answer: Take::Spent,
        },
    }
}

// Of any cell in range.
#[tactic(auto, unfolding(crate::specs::Model::claim_at_of, model::specs::Lock::take_of))]
pub fn claim_at(head: Head, table: &mut [u32], cell: u32) -> Claim
    requires { 3 * cell + 2 < length table.old }
    ensures { (result, table.new) ≡ claim_at_of head table.old cell }
{
    match arena::state_at(head.next, table, cell) {
        State::Damaged => Claim {
            head,
            answer: Take::Damaged,
        },
        State::Held(owner) => Claim {
            head,
            answer: Take::Busy(owner),
        },
        State::Free => claim_free(head, table, cell),
    }
}

// What an attempt on a cell comes to, and how a call on a head of this boot number answers it.
pub fn outcome(cell: u32, answer: Take) -> Outcome
    ensures { result ≡ outcome_of cell answer }
{
    match answer {
        Take::Granted(serial) => Outcome::Granted(Hold { cell, serial }),
        Take::Busy(owner) => Outcome::Busy(Reason::Held(owner)),
        Take::Damaged => Outcome::Refused(Refusal::Damaged(cell)),
        Take::Spent => Outcome::Refused(Refusal::SerialsSpent(cell)),
    }
}

pub fn answer_of(boot: u32, outcome: Outcome) -> Answer
    ensures { result ≡ answer_of boot outcome }
{
    match outcome {
        Outcome::Granted(hold) => Answer::Granted(Lease {
            cell: hold.cell,
            serial: hold.serial,
            boot,
        }),
        Outcome::Busy(why) => Answer::Busy(why),
        Outcome::Refused(refusal) => Answer::Refused(refusal),
    }
}

// The result of attempt number n of a call, on its cell.
fn claim_reply(n: usize, claim: Claim, cell: u32) -> Reply
    ensures { result ≡ claim_reply_of n claim cell }
{
    let said = outcome(cell, claim.answer);
    arena::reply(claim.head, n, answer_of(claim.head.boot, said))
}

// Attempt number n of a call: one compare-and-set.
fn acquire(n: usize, head: Head, table: &mut [u32], cell: u32) -> Reply
    requires { 3 * cell + 2 < length table.old }
    ensures { (result, table.new) ≡ (acquire_of n head table.old cell).seen }
{
    let claim = claim_at(head, table, cell);
    claim_reply(n, claim, cell)
}

// Attempt number n of a call, on a cell that is released just before: it is free, so nothing is tested again.
fn hand_on(n: usize, head: Head, table: &mut [u32], cell: u32) -> Reply
    requires { 3 * cell + 2 < length table.old }
    ensures { (result, table.new) ≡ (acquire_of n head (set_cell table.old cell 0 0) cell).seen }
{
    arena::release(table, cell);
    let claim = claim_free(head, table, cell);
    claim_reply(n, claim, cell)
}

// ---- the checks of these calls, in the order of document 01's table

// The lease at a position of a list.
// (a) Lists are lent as words, three a lease, as include/skid.h has them.
pub fn lease_in(list: &[u32], i: usize) -> Lease
    requires { 3 * i + 2 < length list.now }
    ensures { result ≡ lease_in list.now i }
{
    Lease {
        cell: list[3 * i],
        serial: list[3 * i + 1],
        boot: list[3 * i + 2],
    }
}

// Whether these are the words of a hold.
#[tactic(auto, unfolding(model::specs::Arena::same_hold))]
pub fn same_hold(cell: u32, serial: u32, hold: Hold) -> bool
    ensures { result ≡ same_hold (hold_of cell serial) hold }
{
    Hold { cell, serial } == hold
}

// Whether a hold stands in a list of leases; the scan ends at the first match. The boot numbers of the list are not
// read: they are tested before.
pub fn is_in(list: &[u32], hold: Hold) -> bool
    ensures { result ≡ is_in hold (holds_of list.now) }
{
    for i in 0..list.len() / 3 {
        if same_hold(list[3 * i], list[3 * i + 1], hold) {
            return true;
        }
    }
    false
}

// The same of those from a position on.
pub fn is_in_from(list: &[u32], from: usize, hold: Hold) -> bool
    ensures { result ≡ is_in hold (holds_of (drop (3 * from) list.now)) }
{
    if list.len() / 3 <= from {
        return false;
    }
    is_in(&list[3 * from..], hold)
}

// Whether a lease of the head's own boot number is live.
pub fn is_live(head: Head, table: &[u32], cell: u32, serial: u32) -> bool
    requires { shape_fits head (length table.now) ≡ true }
    ensures { result ≡ is_live head.next (cells_of head) table.now (hold_of cell serial) }
{
    arena::is_live(head.next, head.headers * head.buckets, table, cell, serial)
}

// The first lease of a held list that has another boot number or is not live: 16 before 3 at each position.
fn live_fault(head: Head, table: &[u32], held: &[u32]) -> Result<(), Refusal>
    requires { shape_fits head (length table.now) ≡ true }
    ensures { result ≡ first (not_live head table.now 0 (leases_of held.now)) }
{
    for i in 0..held.len() / 3 {
        let lease = lease_in(held, i);
        if head.is_stale(lease) {
            return Err(Refusal::StaleBoot(i));
        }
        if !is_live(head, table, lease.cell, lease.serial) {
            return Err(Refusal::BadHeld(i));
        }
    }
    Ok(())
}

// Any held list: its length, and then each lease by position.
#[tactic(auto, unfolding(model::specs::Refusals::first))]
fn listed_fault(head: Head, table: &[u32], held: &[u32]) -> Result<(), Refusal>
    requires { shape_fits head (length table.now) ≡ true }
    ensures { result ≡ first (bad_held head table.now held.now) }
{
    let n = held.len() / 3;
    if held.len() % 3 != 0 || 64 < n {
        return Err(Refusal::BadHeld(n));
    }
    live_fault(head, table, held)
}

// A held list. An empty one costs a test: the call behind it is made for others only.
pub fn held_fault(head: Head, table: &[u32], held: &[u32]) -> Result<(), Refusal>
    requires { shape_fits head (length table.now) ≡ true }
    ensures { result ≡ first (bad_held head table.now held.now) }
{
    if held.len() == 0 {
        return Ok(());
    }
    listed_fault(head, table, held)
}

// A cell number of a call by cell.
#[tactic(auto, unfolding(model::specs::Refusals::first))]
pub fn cell_fault(head: Head, cell: u32) -> Result<(), Refusal>
    requires { cells_of head ≤ 4096 }
    ensures { result ≡ first (bad_cell head cell ∷ []) }
{
    if head.headers * head.buckets <= cell {
        return Err(Refusal::InvalidBucket(cell));
    }
    Ok(())
}

// A lease to release or read: 16, and then 12.
#[tactic(auto, unfolding(model::specs::Refusals::first))]
fn lease_fault(head: Head, table: &[u32], lease: Lease) -> Result<(), Refusal>
    requires { shape_fits head (length table.now) ≡ true }
    ensures { result ≡ first (stale_boot head 0 lease ∷ not_held head table.now 0 lease ∷ []) }
{
    if head.is_stale(lease) {
        return Err(Refusal::StaleBoot(0));
    }
    if is_live(head, table, lease.cell, lease.serial) {
        return Ok(());
    }
    Err(Refusal::NotHeld(0))
}

// 1, of head and table: these calls are given no health.
#[tactic(auto, unfolding(model::specs::Refusals::first))]
fn shape_fault(head: Head, table: &[u32]) -> Result<(), Refusal>
    ensures { result ≡ first (bad_shape head table.now ∷ []) }
{
    if head.shape_fits(table.len()) {
        Ok(())
    } else {
        Err(Refusal::BadShape)
    }
}

#[tactic(auto, using(laws::specs::Checks::fronts), unfolding(model::specs::Checks::cell_rules))]
fn cell_check(head: Head, table: &[u32], cell: u32) -> Result<(), Refusal>
    ensures { result ≡ first (cell_rules head table.now cell) }
{
    shape_fault(head, table)?;
    cell_fault(head, cell)
}

fn lease_check(head: Head, table: &[u32], lease: Lease) -> Result<(), Refusal>
    ensures { result ≡ first (lease_rules head table.now lease) }
{
    shape_fault(head, table)?;
    lease_fault(head, table, lease)
}

fn held_cell_check(head: Head, table: &[u32], held: &[u32], cell: u32) -> Result<(), Refusal>
    ensures { result ≡ first (held_cell_rules head table.now held.now cell) }
{
    shape_fault(head, table)?;
    held_fault(head, table, held)?;
    cell_fault(head, cell)
}

// Of a live lease that may not be in the held list.
#[tactic(auto, unfolding(model::specs::Refusals::first))]
fn protected_fault(held: &[u32], lease: Lease) -> Result<(), Refusal>
    ensures { result ≡ first (is_protected held.now lease ∷ []) }
{
    let hold = Hold {
        cell: lease.cell,
        serial: lease.serial,
    };
    if is_in(held, hold) {
        return Err(Refusal::Protected);
    }
    Ok(())
}

fn held_lease_check(head: Head, table: &[u32], held: &[u32], lease: Lease) -> Result<(), Refusal>
    ensures { result ≡ first (held_lease_rules head table.now held.now lease) }
{
    shape_fault(head, table)?;
    held_fault(head, table, held)?;
    drop_fault(head, table, held, lease)
}

// 16 and 12, and then 13.
fn drop_fault(head: Head, table: &[u32], held: &[u32], lease: Lease) -> Result<(), Refusal>
    requires { shape_fits head (length table.now) ≡ true }
    ensures { result
        ≡ first (stale_boot head 0 lease ∷ not_held head table.now 0 lease
        ∷ is_protected held.now lease ∷ []) }
{
    lease_fault(head, table, lease)?;
    protected_fault(held, lease)
}

// ---- the calls

// One compare-and-set of a cell. A damaged cell is refused with 9, a held one answers Busy with its owner's serial, and
// a free one with no serial left is refused with 10; only a grant changes the table, and health and waiters are not
// read.
// (d) All calls here are a check, and then a refusal or a body of their own: one function for all is handed both.
#[tactic(auto, unfolding(model::specs::Calls::try_acquire_of))]
pub fn try_acquire(head: Head, table: &mut [u32], cell: u32) -> Reply
    ensures { (result, table.new) ≡ (try_acquire_of head table.old cell).seen }
{
    match cell_check(head, table, cell) {
        Err(refusal) => arena::refuse(head, refusal),
        Ok(()) => acquire(1, head, table, cell),
    }
}

// One release, and no boundary; who waits for the cell stays noted. A lease with another boot number than the head's is
// refused with 16, one that is not live, on a damaged cell too, with 12, and nothing changes.
#[tactic(auto, unfolding(model::specs::Calls::drop_lease_of))]
pub fn drop_lease(head: Head, table: &mut [u32], lease: Lease) -> Reply
    ensures { (result, table.new) ≡ (drop_lease_of head table.old lease).seen }
{
    match lease_check(head, table, lease) {
        Err(refusal) => arena::refuse(head, refusal),
        Ok(()) => {
            arena::release(table, lease.cell);
            arena::reply(head, 0, Answer::Done)
        }
    }
}

// Answers the cell of a live lease and changes nothing; a lease with another boot number is refused with 16, any other
// that is not live with 12.
#[tactic(auto, unfolding(model::specs::Calls::read_permission_of))]
pub fn read_permission(head: Head, table: &[u32], lease: Lease) -> Reply
    ensures { result ≡ (read_permission_of head table.now lease).seen }
{
    match lease_check(head, table, lease) {
        Err(refusal) => arena::refuse(head, refusal),
        Ok(()) => arena::reply(head, 0, Answer::Cell(lease.cell)),
    }
}

// One compare-and-set of a live lease's cell: it is Busy always, held by the lease's serial, and changes nothing. A
// lease with another boot number is refused with 16, one that is not live with 12, before the attempt.
#[tactic(auto, unfolding(model::specs::Calls::competing_acquire_of))]
pub fn competing_acquire_is_excluded(head: Head, table: &mut [u32], lease: Lease) -> Reply
    ensures { (result, table.new) ≡ (competing_acquire_of head table.old lease).seen }
{
    match lease_check(head, table, lease) {
        Err(refusal) => arena::refuse(head, refusal),
        Ok(()) => acquire(1, head, table, lease.cell),
    }
}

// The lease released, and its cell taken anew. With no serial left it is refused with 10, and the release stands: the
// cell is free. A lease with another boot number is refused with 16, one that is not live with 12, and nothing is
// released.
#[tactic(auto, unfolding(model::specs::Calls::release_then_handoff_of))]
pub fn release_then_handoff(head: Head, table: &mut [u32], lease: Lease) -> Reply
    ensures { (result, table.new) ≡ (release_then_handoff_of head table.old lease).seen }
{
    match lease_check(head, table, lease) {
        Err(refusal) => arena::refuse(head, refusal),
        Ok(()) => hand_on(1, head, table, lease.cell),
    }
}

// A try_acquire that is Busy, a foreign release, a try_acquire: two attempts. The held list goes first (3, 16), then
// the lease (16, 12); a lease that the held list has is refused with 13 and keeps its cell. With no serial left the
// second attempt is refused with 10, and the cell is free.
#[tactic(auto, unfolding(model::specs::Calls::foreign_release_of))]
pub fn foreign_release_between_attempts(
    head: Head,
    table: &mut [u32],
    held: &[u32],
    lease: Lease,
) -> Reply
    ensures { (result, table.new)
        ≡ (foreign_release_of head table.old held.now lease).seen }
{
    match held_lease_check(head, table, held, lease) {
        Err(refusal) => arena::refuse(head, refusal),
        Ok(()) => {
            let busy = acquire(1, head, table, lease.cell);
            hand_on(2, busy.head, table, lease.cell)
        }
    }
}

// try_acquire after the held list's check. A held lease with another boot number refuses the call with 16 and its
// position, one that is not live with 3 and its position; the held leases stay live.
#[tactic(auto, unfolding(model::specs::Calls::acquire_preserving_of))]
pub fn acquire_preserving_borrows(head: Head, table: &mut [u32], held: &[u32], cell: u32) -> Reply
    ensures { (result, table.new)
        ≡ (acquire_preserving_of head table.old held.now cell).seen }
{
    match held_cell_check(head, table, held, cell) {
        Err(refusal) => arena::refuse(head, refusal),
        Ok(()) => acquire(1, head, table, cell),
    }
}

// drop_lease, but not of a lease in the held list: that is refused with 13, and nothing changes. With an empty list it
// is drop_lease itself.
// (d) In stages and not behind `held_lease_check`: an empty held list goes to `drop_lease` at once.
pub fn drop_preserving_borrows(head: Head, table: &mut [u32], held: &[u32], lease: Lease) -> Reply
    ensures { (result, table.new)
        ≡ (drop_preserving_of head table.old held.now lease).seen }
{
    if held.len() == 0 {
        return drop_lease(head, table, lease);
    }
    if head.shape_fits(table.len()) {
        return match held_fault(head, table, held) {
            Err(refusal) => arena::refuse(head, refusal),
            Ok(()) => drop_behind(head, table, held, lease),
        };
    }
    arena::refuse(head, Refusal::BadShape)
}

// Its second stage, once the held list is fine: 16 and 12.
fn drop_behind(head: Head, table: &mut [u32], held: &[u32], lease: Lease) -> Reply
    requires { shape_fits head (length table.old) ≡ true }
    ensures { (result, table.new) ≡ drop_behind_of head table.old held.now lease }
{
    match lease_fault(head, table, lease) {
        Err(refusal) => arena::refuse(head, refusal),
        Ok(()) => drop_unprotected(head, table, held, lease),
    }
}

// Its third stage, of a live lease: 13, or the release.
#[tactic(auto, unfolding(crate::specs::Drop::drop_unprotected_of))]
fn drop_unprotected(head: Head, table: &mut [u32], held: &[u32], lease: Lease) -> Reply
    requires { 3 * lease.cell + 2 < length table.old }
    ensures { (result, table.new)
        ≡ drop_unprotected_of head table.old held.now lease }
{
    let hold = Hold {
        cell: lease.cell,
        serial: lease.serial,
    };
    if is_in(held, hold) {
        return arena::refuse(head, Refusal::Protected);
    }
    arena::release(table, hold.cell);
    arena::reply(head, 0, Answer::Done)
}
