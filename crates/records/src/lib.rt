// A thin face over the core: the cells as a lent slice of records. A single take and a single release give the answers
// of `lease` on the table of words that the records spell. All rules are on one record by value; the two calls at the
// end only copy the record out and write it back.
#![tactic(auto)]

ghost use Rattle.std.specs.Prelude.{◌≡◌, ◌*◌};
ghost use Rattle.model.specs.Arena.{shape_fits, state_of, held_by};
ghost use Rattle.model.specs.Calls.{try_acquire_of, drop_lease_of};
ghost use Rattle.records.specs.Model.{spelled, spot_of, take_spot_of, drop_spot_of, take_reply_of, take_free_of};
ghost use Rattle.records.specs.Model.{take_rule_of, drop_rule_of};

use types::{Answer, Head, Lease, Refusal, Reply, State, Take};

// A cell of the arena.
#[derive(Clone, Copy, PartialEq, Eq, Debug)]
pub struct Cell {
    pub bit: u32,
    pub owner: u32,
    pub waiters: u32,
}

// What a rule makes of a record: the record after it, and the call's answer.
#[derive(Clone, Copy)]
struct Changed {
    cell: Cell,
    reply: Reply,
}

// ---- where the record stands

// Whether the head and the number of records keep the arena's rules. More than 4,096 never do, so three words each can
// be counted.
#[tactic(auto, using(crate::specs::Laws::too_many_lem))]
fn shape_fits(head: Head, n: usize) -> bool
    ensures { result ≡ shape_fits head (3 * n) }
{
    n <= 4096 && head.shape_fits(3 * n)
}

// Where the record of a cell stands. 1 where the arena's rules are broken, and this refusal for a cell out of range.
#[tactic(auto, unfolding(crate::specs::Model::spot_of))]
fn find(head: Head, n: usize, cell: u32, refusal: Refusal) -> Result<usize, Refusal>
    ensures { result ≡ spot_of head n cell refusal }
{
    let at = cell as usize;
    if !shape_fits(head, n) {
        return Err(Refusal::BadShape);
    }
    if at < n { Ok(at) } else { Err(refusal) }
}

// 8 for a cell out of range.
#[tactic(auto, unfolding(crate::specs::Model::take_spot_of))]
fn take_spot(head: Head, n: usize, cell: u32) -> Result<usize, Refusal>
    ensures { result ≡ take_spot_of head n cell }
{
    find(head, n, cell, Refusal::InvalidBucket(cell))
}

// 12 for a lease whose cell is out of range, and before that 16 for another boot number than the head's.
#[tactic(auto, unfolding(crate::specs::Model::drop_spot_of))]
fn drop_spot(head: Head, n: usize, lease: Lease) -> Result<usize, Refusal>
    ensures { result ≡ drop_spot_of head n lease }
{
    if head.is_stale(lease) && shape_fits(head, n) {
        return Err(Refusal::StaleBoot(0));
    }
    find(head, n, lease.cell, Refusal::NotHeld(0))
}

// ---- the rules on one record

// The reply of the one attempt of a take.
fn take_reply(head: Head, cell: u32, answer: Take) -> Reply
    ensures { result ≡ take_reply_of head cell answer }
{
    let said = lease::outcome(cell, answer);
    arena::reply(head, 1, lease::answer_of(head.boot, said))
}

// Of a record that is free: the head issues the next serial, if one remains.
// (d) Of a record by value: `claim_free` of `lease` stores words of a table.
#[tactic(auto, unfolding(crate::specs::Model::take_free_of))]
fn take_free(head: Head, c: Cell, cell: u32) -> Changed
    ensures { result ≡ take_free_of head c cell }
{
    let issue = head.issue();
    let after = issue.head;
    match issue.serial {
        Some(owner) => Changed {
            cell: Cell { bit: 1, owner, ..c },
            reply: take_reply(after, cell, Take::Granted(owner)),
        },
        None => Changed {
            cell: c,
            reply: take_reply(after, cell, Take::Spent),
        },
    }
}

// Of any record.
#[tactic(auto, unfolding(crate::specs::Model::take_rule_of))]
fn take_rule(head: Head, c: Cell, cell: u32) -> Changed
    ensures { result ≡ take_rule_of head c cell }
{
    match arena::state_of(head.next, c.bit, c.owner) {
        State::Damaged => Changed {
            cell: c,
            reply: take_reply(head, cell, Take::Damaged),
        },
        State::Held(owner) => Changed {
            cell: c,
            reply: take_reply(head, cell, Take::Busy(owner)),
        },
        State::Free => take_free(head, c, cell),
    }
}

// Whether a record is held by this serial.
fn held_by(next: u32, c: Cell, serial: u32) -> bool
    ensures { result ≡ held_by (state_of next c.bit c.owner) serial }
{
    arena::state_of(next, c.bit, c.owner) == State::Held(serial)
}

// Of a record that is held by the lease's serial: nobody owns it after. Of another: 12. The boot number is tested
// before.
#[tactic(auto, unfolding(crate::specs::Model::drop_rule_of))]
fn drop_rule(head: Head, c: Cell, lease: Lease) -> Changed
    ensures { result ≡ drop_rule_of head c lease }
{
    if held_by(head.next, c, lease.serial) {
        Changed {
            cell: Cell {
                bit: 0,
                owner: 0,
                ..c
            },
            reply: arena::reply(head, 0, Answer::Done),
        }
    } else {
        Changed {
            cell: c,
            reply: arena::refuse(head, Refusal::NotHeld(0)),
        }
    }
}

// ---- the calls

// One compare-and-set, as `lease::try_acquire` over the table that the records spell; only a grant changes a record.
#[tactic(auto, using(crate::specs::Laws::taking))]
pub fn try_acquire(head: Head, cells: &mut [Cell], cell: u32) -> Reply
    ensures { (result, spelled cells.new) ≡ (try_acquire_of head (spelled cells.old) cell).seen }
{
    match take_spot(head, cells.len(), cell) {
        Err(refusal) => arena::refuse(head, refusal),
        Ok(at) => {
            let changed = take_rule(head, cells[at], cell);
            cells[at] = changed.cell;
            changed.reply
        }
    }
}

// One release, as `lease::drop_lease`; a lease with another boot number than the head's is refused with 16, one that is
// not live with 12, and no record changes.
#[tactic(auto, using(crate::specs::Laws::dropping))]
pub fn drop_lease(head: Head, cells: &mut [Cell], lease: Lease) -> Reply
    ensures { (result, spelled cells.new) ≡ (drop_lease_of head (spelled cells.old) lease).seen }
{
    match drop_spot(head, cells.len(), lease) {
        Err(refusal) => arena::refuse(head, refusal),
        Ok(at) => {
            let changed = drop_rule(head, cells[at], lease);
            cells[at] = changed.cell;
            changed.reply
        }
    }
}
