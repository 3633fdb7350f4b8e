// The crew at work (document 02, L13): between holding all its cells and releasing them, a member adds to their
// counters, a moving turn a cell. Plans, turns and replies are those of `crew_plan` and `crew`.
#![tactic(auto)]

ghost use Rattle.std.specs.Prelude.{◌≡◌};
ghost use Rattle.model.specs.Refusals.{first};
ghost use Rattle.model.specs.Crew.{crew_at_work_rules, crew_at_work_of};

use types::{CrewReply, Head, Refusal};

// ---- the checks

// 1, of the arena and then where there is not one counter a cell, and then 15.
#[tactic(auto, using(crew_plan::specs::Fine::testing), unfolding(model::specs::Crew::crew_at_work_rules))]
fn work_check(
    head: Head,
    table: &[u32],
    health: &[u8],
    counts: &[u32],
    cells: &[u32],
    turns: &[u32],
    counters: &[u16],
) -> Result<(), Refusal>
    ensures { result
        ≡ first (crew_at_work_rules head table.now health.now
        counts.now cells.now turns.now counters.now) }
{
    arena::arena_fault(head, table, health)?;
    let inside = head.headers * head.buckets;
    if counters.len() != inside as usize {
        return Err(Refusal::BadShape);
    }
    crew_plan::plan_fault(inside, counts, cells, turns)
}

// ---- the call

// The crew with a counter for each cell: `counters` has one a cell, starting as the caller sets them. Everything else
// is as `crew::crew` has it. A refusal leaves table and counters; turns that run out leave what was added so far.
pub fn crew_at_work(
    head: Head,
    table: &mut [u32],
    health: &[u8],
    counts: &[u32],
    cells: &[u32],
    turns: &[u32],
    counters: &mut [u16],
) -> CrewReply
    ensures { (result, (table.new, counters.new))
        ≡ (crew_at_work_of head table.old health.now
        counts.now cells.now turns.now counters.old).seen }
{
    match work_check(head, table, health, counts, cells, turns, counters) {
        Err(refusal) => crew::refuse(head, refusal),
        Ok(()) => crew::crew_run::<true>(head, table, health, counts, cells, turns, counters),
    }
}
