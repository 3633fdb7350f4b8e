// The arena of document 01: a cell's three words, what they say, and preparing.
// Functions with a `requires` are parts: calls have tested the shape, and a part tests nothing twice.
// Parts are no calls of document 01, public ones neither: only the layers here call them (tests/layers.sh), and each
// caller proves their `requires`.
#![tactic(auto)]

ghost use Rattle.std.specs.Prelude.{◌≡◌, [], ◌∷◌, ◌+◌, ◌*◌, ◌<◌, ◌≤◌, length, replicate};
ghost use Rattle.model.specs.Arena.{hold_of, bit_at, owner_at, waiters_at, set_cell};
ghost use Rattle.model.specs.Arena.{set_waiters, is_free, state_of, state_at, is_live};
ghost use Rattle.model.specs.Refusals.{first};
ghost use Rattle.model.specs.Checks.{bad_shape, bad_health};
ghost use Rattle.model.specs.Calls.{prepare_of, refused, replied};

use types::{Answer, Counts, Head, Refusal, Reply, State};

// Bit, owner and waiters of a cell.
// (d) That a cell lies in the table is asked by each part: a type that has it would hold the table, which C lends and
// which the same parts write.
#[tactic(auto, unfolding(model::specs::Arena::bit_at))]
pub fn bit_at(table: &[u32], cell: u32) -> u32
    requires { 3 * cell + 2 < length table.now }
    ensures { result ≡ bit_at table.now cell }
{
    table[3 * (cell as usize)]
}

#[tactic(auto, unfolding(model::specs::Arena::owner_at))]
pub fn owner_at(table: &[u32], cell: u32) -> u32
    requires { 3 * cell + 2 < length table.now }
    ensures { result ≡ owner_at table.now cell }
{
    table[3 * (cell as usize) + 1]
}

#[tactic(auto, unfolding(model::specs::Arena::waiters_at))]
pub fn waiters_at(table: &[u32], cell: u32) -> u32
    requires { 3 * cell + 2 < length table.now }
    ensures { result ≡ waiters_at table.now cell }
{
    table[3 * (cell as usize) + 2]
}

// Another bit and owner for a cell; other waiters for a cell.
#[tactic(auto, unfolding(model::specs::Arena::set_cell))]
pub fn set_cell(table: &mut [u32], cell: u32, bit: u32, owner: u32)
    requires { 3 * cell + 2 < length table.old }
    ensures { table.new ≡ set_cell table.old cell bit owner }
{
    let at = 3 * (cell as usize);
    table[at] = bit;
    table[at + 1] = owner;
}

// A release: nobody owns the cell.
pub fn release(table: &mut [u32], cell: u32)
    requires { 3 * cell + 2 < length table.old }
    ensures { table.new ≡ set_cell table.old cell 0 0 }
{
    set_cell(table, cell, 0, 0)
}

#[tactic(auto, unfolding(model::specs::Arena::set_waiters))]
pub fn set_waiters(table: &mut [u32], cell: u32, number: u32)
    requires { 3 * cell + 2 < length table.old }
    ensures { table.new ≡ set_waiters table.old cell number }
{
    let at = 3 * (cell as usize) + 2;
    table[at] = number;
}

// Whether a cell is free.
#[tactic(auto, unfolding(model::specs::Arena::is_free))]
pub fn is_free(table: &[u32], cell: u32) -> bool
    requires { 3 * cell + 2 < length table.now }
    ensures { result ≡ is_free (bit_at table.now cell) (owner_at table.now cell) }
{
    bit_at(table, cell) == 0 && owner_at(table, cell) == 0
}

// What a bit and an owner say.

#[tactic(auto, unfolding(model::specs::Arena::state_of, model::specs::Arena::is_free, model::specs::Arena::is_held))]
pub fn state_of(next: u32, bit: u32, owner: u32) -> State
    ensures { result ≡ state_of next bit owner }
{
    if bit == 0 {
        if owner == 0 {
            return State::Free;
        }
        return State::Damaged;
    }
    if bit == 1 {
        if owner < 1 {
            return State::Damaged;
        }
        if owner < next {
            return State::Held(owner);
        }
        return State::Damaged;
    }
    State::Damaged
}

// A cell's state.
#[tactic(auto, unfolding(model::specs::Arena::state_at))]
pub fn state_at(next: u32, table: &[u32], cell: u32) -> State
    requires { 3 * cell + 2 < length table.now }
    ensures { result ≡ state_at next table.now cell }
{
    let b = bit_at(table, cell);
    let o = owner_at(table, cell);
    state_of(next, b, o)
}

// Whether a lease of the head's own boot number is live.
#[tactic(auto, unfolding(model::specs::Arena::is_live))]
pub fn is_live(next: u32, cells: u32, table: &[u32], cell: u32, serial: u32) -> bool
    requires { 3 * cells ≤ length table.now }
    ensures { result ≡ is_live next cells table.now (hold_of cell serial) }
{
    cell < cells && state_at(next, table, cell) == State::Held(serial)
}

// The results of calls without a script: only attempts can be other than 0.
pub fn reply(head: Head, attempts: usize, answer: Answer) -> Reply
    ensures { result ≡ replied head attempts answer }
{
    Reply {
        head,
        counts: Counts {
            attempts,
            boundaries: 0,
            yields: 0,
            dropped: 0,
        },
        answer,
    }
}

pub fn refuse(head: Head, refusal: Refusal) -> Reply
    ensures { result ≡ refused head refusal }
{
    reply(head, 0, Answer::Refused(refusal))
}

// 1, of head, table and health: the first check of preparing, of every call with a script and of the crew.
#[tactic(auto, unfolding(model::specs::Refusals::first))]
pub fn arena_fault(head: Head, table: &[u32], health: &[u8]) -> Result<(), Refusal>
    ensures { result ≡ first (bad_shape head table.now ∷ bad_health head health.now ∷ []) }
{
    if head.shape_fits(table.len()) && head.health_fits(health.len()) {
        Ok(())
    } else {
        Err(Refusal::BadShape)
    }
}

// Every byte 0.
pub fn zero_bytes(bytes: &mut [u8])
    ensures { bytes.new ≡ replicate (length bytes.old) 0 }
{
    bytes.fill(0)
}

// Sets every table word and health byte to 0, whatever stood there, and hands back a head with the boot number given
// (any number is one). A head or a length that keeps no rule of the arena is refused with 1: no lent word changes, and
// the head handed back is four zeros.
#[tactic(auto, unfolding(model::specs::Calls::prepare_of, model::specs::Checks::prepare_rules))]
pub fn prepare(
    headers: u32,
    buckets: u32,
    serial: u32,
    boot: u32,
    table: &mut [u32],
    health: &mut [u8],
) -> Reply
    ensures { (result, (table.new, health.new))
        ≡ (prepare_of headers buckets serial boot table.old health.old).seen }
{
    let head = Head {
        headers,
        buckets,
        next: serial,
        boot,
    };
    let none = Head {
        headers: 0,
        buckets: 0,
        next: 0,
        boot: 0,
    };
    match arena_fault(head, table, health) {
        Err(refusal) => refuse(none, refusal),
        Ok(()) => {
            table.fill(0);
            zero_bytes(health);
            reply(head, 0, Answer::Done)
        }
    }
}
