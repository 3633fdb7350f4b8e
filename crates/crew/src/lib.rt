// The crew: up to sixteen members take turns, each taking the cells of its list in order, adding to their counters in a
// crew at work (document 02, L13), and then releasing them, last first. `ADDING` says which of the two works it is:
// crate `crew_at_work` has the call of the other. The parts that are `pub` serve it too.
// Functions with a `requires` are parts: the call has tested shape, limits, lists and turns, and a part tests nothing
// twice.
#![tactic(auto)]

ghost use Rattle.std.specs.Prelude.{◌≡◌, ◌+◌, ◌*◌, ◌/◌, ◌<◌, ◌≤◌, true, length, slice_index};
ghost use Rattle.model.specs.Refusals.{first};
ghost use Rattle.model.specs.Crew.{adds_of, moves_of, added_to, crew_rules, crew_refused, crew_of};
ghost use Rattle.crew_plan.specs.Starts.{Begun};
ghost use Rattle.crew_plan.specs.Fine.{CrewFine};
ghost use Rattle.crew.specs.Idle.{OfSixteen, IdleTo};
ghost use Rattle.crew.specs.Moves.{Others};
ghost use Rattle.crew.specs.Model.{work_by, place_of, note_of, try_move_of, make_move_of, work_move_of};
ghost use Rattle.crew.specs.Model.{take_turns_of, finish_of, crew_run_of};

use types::{Answer, CrewReply, Flow, Head, Outcome, Refusal};

// What a turn comes to; a take hands on the next serial and the one it took.
#[derive(Clone, Copy)]
pub enum Move {
    Idle,
    Took(u32, u32),
    Moved,
}

// What all turns come to, besides the table.
#[derive(Clone, Copy)]
pub struct Worked {
    pub next: u32,
    pub moving: usize,
    pub idle: usize,
    pub made: [usize; 16],
}

// ---- the checks

// 1, and then 15.
#[tactic(auto, using(crew_plan::specs::Fine::testing), unfolding(model::specs::Crew::crew_rules))]
fn crew_check(
    head: Head,
    table: &[u32],
    health: &[u8],
    counts: &[u32],
    cells: &[u32],
    turns: &[u32],
) -> Result<(), Refusal>
    ensures { result
        ≡ first (crew_rules head table.now health.now
        counts.now cells.now turns.now) }
{
    arena::arena_fault(head, table, health)?;
    crew_plan::plan_fault(head.headers * head.buckets, counts, cells, turns)
}

// ---- the moves that a member has made, and those that it has left

// A member's count; past the last member it is 0.
fn count_of(counts: &[u32], m: usize) -> usize
    ensures { result ≡ slice_index counts.now m }
{
    counts.get(m).copied().unwrap_or(0) as usize
}

// How many moves a member with so many cells adds in: none in document 01's run.
fn adds_of<const ADDING: bool>(count: usize) -> usize
    ensures { result ≡ adds_of (work_by ADDING) count }
{
    if ADDING { count } else { 0 }
}

// Of all moves of each member, those that are not among these: what is left beside what is made, and what is made
// beside what is left. Sixteen places, as in the reply: no heap. A call of its own, or the array is spread over
// registers.
#[inline(never)]
#[tactic(auto, using(crate::specs::Moves::leaving, laws::specs::Crew::adds_few))]
fn other_moves<const ADDING: bool>(counts: &[u32], moves: &[usize; 16]) -> [usize; 16]
    ensures { Others (work_by ADDING) counts.now moves.now result 16 }
{
    let mut others = [0usize; 16];
    for m in 0..16 {
        let count = count_of(counts, m);
        let all = 2 * count + adds_of::<ADDING>(count);
        others[m] = all.saturating_sub(moves[m]);
    }
    others
}

// ---- one turn

// The cell of a member's next move: the next that it has not taken, the next that it has not added to, or the last that
// it still holds. It is read where the move is told, so that no place is chosen twice.
#[tactic(auto, unfolding(crate::specs::Model::place_of))]
fn cell_of<const ADDING: bool>(cells: &[u32], start: usize, n: usize, count: usize) -> u32
    requires { (start + count ≤ length cells.now) × ((length cells.now ≤ 256) × (n < moves_of (work_by ADDING) count)) }
    ensures { result ≡ slice_index cells.now (place_of (work_by ADDING) start n count) }
{
    let adds = adds_of::<ADDING>(count);
    if n < count {
        return cells[start + n];
    }
    if n < count + adds {
        return cells[start + (n - count)];
    }
    cells[start + (2 * count + adds - 1 - n)]
}

// One try_lock with no script, on a cell whose header was read healthy: it is the quiet one.
#[tactic(auto, unfolding(crate::specs::Model::try_move_of))]
fn try_move(head: Head, next: u32, table: &mut [u32], cell: u32) -> Move
    requires { 3 * cell + 2 < length table.old }
    ensures { (result, table.new) ≡ try_move_of next table.old cell }
{
    let flow = Flow {
        next,
        place: 0,
        dropped: 0,
    };
    let locked = lock::quiet_lock(head, flow, table, cell);
    match locked.answer {
        Outcome::Granted(hold) => Move::Took(locked.flow.next, hold.serial),
        Outcome::Busy(_) => Move::Idle,
        Outcome::Refused(_) => Move::Idle,
    }
}

// A turn of a member that takes: a health reading and a try_lock.
#[tactic(auto, unfolding(crate::specs::Model::make_move_of))]
fn take(head: Head, next: u32, table: &mut [u32], health: &[u8], cell: u32) -> Move
    requires { (3 * cell + 2 < length table.old)
        × ((1 ≤ head.buckets) × (cell / head.buckets < length health.now)) }
    ensures { (result, table.new) ≡ make_move_of next head.buckets table.old health.now true cell }
{
    let header = cell / head.buckets;
    if health[header as usize] == 0 {
        return try_move(head, next, table, cell);
    }
    Move::Idle
}

// One cell's add; the sum wraps.
#[tactic(auto, using(std::proofs::lemmas::List::set_past), unfolding(model::specs::Crew::summed_of))]
fn add(counters: &mut [u16], cell: u32, value: u16)
    ensures { counters.new ≡ added_to counters.old cell value }
{
    let at = cell as usize;
    if at < counters.len() {
        counters[at] = counters[at].wrapping_add(value);
    }
}

// One turn of a member that is not finished: a take of this cell, an add of this value to its counter, or its release.
#[tactic(auto, unfolding(crate::specs::Model::make_move_of, crate::specs::Model::work_move_of))]
fn work_move<const ADDING: bool>(
    head: Head,
    next: u32,
    table: &mut [u32],
    health: &[u8],
    counters: &mut [u16],
    n: usize,
    count: usize,
    cell: u32,
    value: u16,
) -> Move
    requires { (3 * cell + 2 < length table.old) × ((1 ≤ head.buckets)
        × ((cell / head.buckets < length health.now) × (count ≤ 64))) }
    ensures { (result, (table.new, counters.new))
        ≡ work_move_of (work_by ADDING) next head.buckets table.old health.now
        counters.old n count cell value }
{
    if n < count {
        return take(head, next, table, health, cell);
    }
    if n < count + adds_of::<ADDING>(count) {
        add(counters, cell, value);
    } else {
        arena::release(table, cell);
    }
    Move::Moved
}

// What stands noted for a member behind a take: the counter of its lowest cell, if it holds all now.
#[tactic(auto, unfolding(crate::specs::Model::note_of))]
fn note(full: bool, before: u16, counters: &[u16], low: u32) -> u16
    ensures { result ≡ note_of full before counters.now low }
{
    if full {
        return counters.get(low as usize).copied().unwrap_or(0);
    }
    before
}

// ---- all turns

// The first turn from here on whose member has a move left, or the end: those before it are idle. In document 01's run
// none is passed: by it a crew whose finished members take turns with waiting ones took a tenth more instructions.
#[tactic(auto, using(crate::specs::Idle::passing))]
fn pass_idle<const ADDING: bool>(turns: &[u32], left: &[usize; 16], from: usize) -> usize
    requires { (from ≤ length turns.now) × OfSixteen turns.now }
    ensures { IdleTo turns.now left.now from result }
{
    if !ADDING {
        return from;
    }
    for i in from..turns.len() {
        if left[turns[i] as usize] != 0 {
            return i;
        }
    }
    turns.len()
}

// The turns in order, from a crew that holds nothing. What moves are left is counted down here and a turn gets numbers.
// Idle turns in a row have a loop of their own, since the loop of moves has more lent runs than registers: so no `for`.
// A search for the next turn that moves took 1.16 times the instructions; arms that meet again took 1.07 times.
// No serial is kept: a release compares it with nothing, since only its holder ever names a cell.
// (b) No `for`: as a `while let` over the next turn that moves it took 1.16 times the instructions.
fn take_turns<const ADDING: bool>(
    head: Head,
    table: &mut [u32],
    health: &[u8],
    counts: &[u32],
    cells: &[u32],
    starts: &[usize; 16],
    turns: &[u32],
    counters: &mut [u16],
) -> Worked
    requires { CrewFine head (length table.old) (length health.now) counts.now cells.now turns.now
        × Begun counts.now starts.now }
    ensures { (result, (table.new, counters.new))
        ≡ take_turns_of (work_by ADDING) head table.old health.now
        counts.now cells.now turns.now counters.old }
{
    let mut left = other_moves::<ADDING>(counts, &[0; 16]);
    let mut noted = [0u16; 16];
    let mut next = head.next;
    let mut moving: usize = 0;
    let mut i: usize = 0;
    while i < turns.len() {
        let m = turns[i] as usize;
        let more = left[m];
        i += 1;
        if more == 0 {
            i = pass_idle::<ADDING>(turns, &left, i);
            continue;
        }
        let count = counts[m] as usize;
        let n = 2 * count + adds_of::<ADDING>(count) - more;
        let start = starts[m];
        let cell = cell_of::<ADDING>(cells, start, n, count);
        let value = noted[m];
        match work_move::<ADDING>(head, next, table, health, counters, n, count, cell, value) {
            Move::Idle => continue,
            Move::Took(after, _) => {
                next = after;
                left[m] = more - 1;
                moving += 1;
                noted[m] = note(n + 1 == count, value, counters, cells[start]);
                continue;
            }
            Move::Moved => {
                left[m] = more - 1;
                moving += 1;
                continue;
            }
        }
    }
    Worked {
        next,
        moving,
        idle: turns.len() - moving,
        made: other_moves::<ADDING>(counts, &left),
    }
}

// ---- the reply

// A member's first moves are its takes, and those beyond its takes and adds are its releases. A call of its own, or the
// reply's arrays are spread over each refusal of the checks, 48 instructions a cell.
#[inline(never)]
#[tactic(auto, using(crate::specs::Reply::filling), unfolding(crate::specs::Model::finish_of))]
fn finish<const ADDING: bool>(head: Head, counts: &[u32], worked: Worked) -> CrewReply
    ensures { result ≡ finish_of (work_by ADDING) head counts.now worked }
{
    let made = worked.made;
    let mut taken = [0usize; 16];
    let mut released = [0usize; 16];
    for m in 0..16 {
        let count = count_of(counts, m);
        taken[m] = made[m].min(count);
        released[m] = made[m]
            .saturating_sub(count)
            .saturating_sub(adds_of::<ADDING>(count));
    }
    CrewReply {
        head: head.spent_to(worked.next),
        moving: worked.moving,
        idle: worked.idle,
        taken,
        released,
        answer: Answer::Done,
    }
}

// A refusal that changes nothing.
pub fn refuse(head: Head, refusal: Refusal) -> CrewReply
    ensures { result ≡ crew_refused head refusal }
{
    CrewReply {
        head,
        moving: 0,
        idle: 0,
        taken: [0; 16],
        released: [0; 16],
        answer: Answer::Refused(refusal),
    }
}

// The turns of a call whose checks are fine.
#[tactic(auto, unfolding(crate::specs::Model::crew_run_of))]
pub fn crew_run<const ADDING: bool>(
    head: Head,
    table: &mut [u32],
    health: &[u8],
    counts: &[u32],
    cells: &[u32],
    turns: &[u32],
    counters: &mut [u16],
) -> CrewReply
    requires { CrewFine head (length table.old) (length health.now) counts.now cells.now turns.now }
    ensures { (result, (table.new, counters.new))
        ≡ crew_run_of (work_by ADDING) head table.old health.now
        counts.now cells.now turns.now counters.old }
{
    let starts = crew_plan::starts_of(counts);
    let worked = take_turns::<ADDING>(head, table, health, counts, cells, &starts, turns, counters);
    finish::<ADDING>(head, counts, worked)
}

// ---- the call

// `counts` says how many cells each member wants, `cells` has their lists one behind the other, `turns` names members.
// A list that does not rise, or a cell or a member that is not there, is refused with 15, and nobody has moved; turns
// that run out leave a crew in the middle of its work, its cells held.
pub fn crew(
    head: Head,
    table: &mut [u32],
    health: &[u8],
    counts: &[u32],
    cells: &[u32],
    turns: &[u32],
) -> CrewReply
    ensures { (result, table.new)
        ≡ (crew_of head table.old health.now
        counts.now cells.now turns.now).seen }
{
    match crew_check(head, table, health, counts, cells, turns) {
        Err(refusal) => refuse(head, refusal),
        Ok(()) => crew_run::<false>(head, table, health, counts, cells, turns, &mut []),
    }
}
