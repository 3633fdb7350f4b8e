// The plan of a crew's run, for document 01's and document 02's: what its limits, lists and turns must keep, and where
// each member's list begins.
// Functions with a `requires` are parts: the call has tested the limits, and a part tests nothing twice.
// (d) The plan stays three lent runs, as `skid_crew` is given them: of a struct of three references each clause says
// `plan.entry.counts.now` for `counts.now`.
#![tactic(auto)]

ghost use Rattle.std.specs.Prelude.{◌≡◌, [], ◌∷◌, ◌++◌, ◌≤◌, length};
ghost use Rattle.model.specs.Refusals.{first};
ghost use Rattle.model.specs.Crew.{total, all_within, bad_limits, rises_from, bad_lists, bad_turns};
ghost use Rattle.crew_plan.specs.Starts.{Begun};

use types::Refusal;

// ---- the checks: limits, then lists by member, then turns by position

// Whether each of these numbers keeps the limit. The scan ends at no fault, as `all` would, so that the compiler takes
// several at once.
#[tactic(auto, using(crate::specs::Lists::scanning))]
fn all_within(most: u32, list: &[u32]) -> bool
    ensures { result ≡ all_within most list.now }
{
    let mut fit = true;
    for &n in list {
        fit &= n <= most;
    }
    fit
}

// How many cells the lists have in all. So few counts of 32 bits cannot wrap.
#[tactic(auto, using(crate::specs::Lists::total_sum))]
fn total_of(counts: &[u32]) -> usize
    requires { length counts.now ≤ 16 }
    ensures { result ≡ total counts.now }
{
    counts.iter().map(|&count| count as usize).sum()
}

#[tactic(auto, unfolding(model::specs::Refusals::first, types::specs::Head::within))]
fn limits_fault(counts: &[u32], cells: &[u32], turns: &[u32]) -> Result<(), Refusal>
    ensures { result ≡ first (bad_limits counts.now cells.now turns.now ∷ []) }
{
    let bad = Err(Refusal::BadCrew(0));
    if !(1..=16).contains(&counts.len()) || !all_within(64, counts) {
        return bad;
    }
    let all = total_of(counts);
    if 256 < all || cells.len() != all || 65536 < turns.len() {
        return bad;
    }
    Ok(())
}

// Whether one member's list rises, cell by cell, within the arena.
#[tactic(auto, using(crate::specs::Lists::rising))]
fn rises(list: &[u32], inside: u32) -> bool
    ensures { result ≡ rises_from inside 0 list.now }
{
    let mut low: u32 = 0;
    for &cell in list {
        if cell < low || inside <= cell {
            return false;
        }
        low = cell + 1;
    }
    true
}

// The first member whose list does not.
#[tactic(auto, using(laws::specs::Crew::start_fits, crate::specs::Starts::beginning, crate::specs::Lists::listing))]
fn lists_fault(inside: u32, counts: &[u32], cells: &[u32]) -> Result<(), Refusal>
    requires { (length counts.now ≤ 16) × (length cells.now ≡ total counts.now) }
    ensures { result
        ≡ first (bad_lists (length counts.now) 0 inside counts.now cells.now) }
{
    let mut start: usize = 0;
    for m in 0..counts.len() {
        let end = start + counts[m] as usize;
        if !rises(&cells[start..end], inside) {
            return Err(Refusal::BadCrew(m));
        }
        start = end;
    }
    Ok(())
}

// The first turn that names no member.
#[tactic(auto, using(crate::specs::Lists::straying))]
fn first_stray(members: usize, turns: &[u32]) -> Result<(), Refusal>
    ensures { result ≡ first (bad_turns members 0 turns.now) }
{
    for i in 0..turns.len() {
        if members <= turns[i] as usize {
            return Err(Refusal::BadCrew(i));
        }
    }
    Ok(())
}

// The same, with the answer at once where all name one.
#[tactic(auto, using(crate::specs::Lists::turns_within))]
fn turns_fault(members: usize, turns: &[u32]) -> Result<(), Refusal>
    requires { (1 ≤ members) × (members ≤ 16) }
    ensures { result ≡ first (bad_turns members 0 turns.now) }
{
    if all_within((members - 1) as u32, turns) {
        return Ok(());
    }
    first_stray(members, turns)
}

// Lists, and then turns.
#[tactic(auto, using(laws::specs::Checks::fronts))]
fn names_fault(inside: u32, counts: &[u32], cells: &[u32], turns: &[u32]) -> Result<(), Refusal>
    requires { (1 ≤ length counts.now)
        × ((length counts.now ≤ 16) × (length cells.now ≡ total counts.now)) }
    ensures { result
        ≡ first (bad_lists (length counts.now) 0 inside counts.now cells.now
        ++ bad_turns (length counts.now) 0 turns.now) }
{
    lists_fault(inside, counts, cells)?;
    turns_fault(counts.len(), turns)
}

// 15: a limit, then a list, then a turn that keeps no rule; the first that applies.
#[tactic(auto, using(laws::specs::Checks::fronts, laws::specs::Crew::limits_fine))]
pub fn plan_fault(inside: u32, counts: &[u32], cells: &[u32], turns: &[u32]) -> Result<(), Refusal>
    ensures { result
        ≡ first (bad_limits counts.now cells.now turns.now
        ∷ (bad_lists (length counts.now) 0 inside counts.now cells.now
        ++ bad_turns (length counts.now) 0 turns.now)) }
{
    limits_fault(counts, cells, turns)?;
    names_fault(inside, counts, cells, turns)
}

// ---- the lists in the run of cells

// Where each member's list begins in the run of cells.
#[tactic(auto, using(crate::specs::Starts::beginning))]
pub fn starts_of(counts: &[u32]) -> [usize; 16]
    requires { length counts.now ≤ 16 }
    ensures { Begun counts.now result }
{
    let mut starts = [0usize; 16];
    let mut start: usize = 0;
    for m in 0..counts.len() {
        starts[m] = start;
        start += counts[m] as usize;
    }
    starts
}
