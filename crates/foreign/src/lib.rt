// Foreign steps: a script's steps, a boundary, and the two calls that are one boundary.
// Functions with a `requires` are parts: calls have tested the shape, and a part tests nothing twice.
// Parts are no calls of document 01, public ones neither: only the layers here call them (tests/layers.sh), and each
// caller proves their `requires`.
#![tactic(auto)]

mod guard;

ghost use Rattle.std.specs.Prelude.{◌≡◌, true, [], ◌∷◌, ◌++◌, ◌+◌, ◌*◌, ◌-◌, ◌/◌, ◌<◌, ◌≤◌, length, replicate};
ghost use Rattle.model.specs.Arena.{shape_fits, is_in, cells_of, head_of, holds_of};
ghost use Rattle.model.specs.Refusals.{first};
ghost use Rattle.model.specs.Checks.{bad_script, bad_held, script_rules};
ghost use Rattle.model.specs.Foreign.{setting, protecting, flow_of, step_take_of, step_release_of};
ghost use Rattle.model.specs.Foreign.{step_waiters_of, step_health_of, step_of, run_steps_of, boundary_of};
ghost use Rattle.model.specs.Calls.{script_reply, given, refused_at_once, environment_of};
ghost use Rattle.foreign.specs.Model.{guards_of, Room, RoomIn, scope_of, setting_of, run_once_of};
ghost use Rattle.foreign.specs.Laws.{FlowBound};
ghost use Rattle.foreign.specs.Marks.{Marked, filling_of, noting_of};
ghost use Rattle.foreign.specs.Fine.{ScriptFine};

use guard::{Guard, Holding, Nobody, filling, note_marks};
use types::{Answer, Counts, Flow, Head, Hold, Refusal, Run, ScriptReply, Stepped};

// What the parts of a call are given and never change: the arena's sizes, its boot number, its number of cells, and the
// number of steps of the script.
// (d) Table, health and script go beside it: they are lent from C one by one, and a struct that lends them on would be
// read through at each word.
#[derive(Clone, Copy)]
pub struct Scope {
    pub headers: u32,
    pub buckets: u32,
    pub boot: u32,
    pub cells: u32,
    pub steps: usize,
}

impl Scope {
    // The head whose next serial is this one.
    pub fn head(self, next: u32) -> Head
        ensures { result ≡ head_of self.headers self.buckets next self.boot }
    {
        Head {
            headers: self.headers,
            buckets: self.buckets,
            next,
            boot: self.boot,
        }
    }
}

// What a call protects: the held list, and the first n of the pairs that it has taken.
// (a) Document 01 has "the array of sixty-four pairs" with a count, and memory is fixed.
#[derive(Clone, Copy)]
pub struct Holds<'a> {
    pub held: &'a [u32],
    pub taken: &'a [[u32; 2]; 64],
    pub n: usize,
    ghost few: { n ≤ 64 },
}

// The scope of a call.
pub fn scope_of(head: Head, script: &[u32]) -> Scope
    requires { cells_of head ≤ 4096 }
    ensures { result ≡ scope_of head (length script.now) }
{
    Scope {
        headers: head.headers,
        buckets: head.buckets,
        boot: head.boot,
        cells: head.headers * head.buckets,
        steps: script.len() / 3,
    }
}

// ---- one step

// 1: take a cell, if it is in range and free and a serial remains.
#[tactic(auto, unfolding(model::specs::Foreign::step_take_of))]
fn step_take(cells: u32, next: u32, table: &mut [u32], cell: u32) -> Stepped
    requires { 3 * cells ≤ length table.old }
    ensures { (result, table.new) ≡ (step_take_of cells next table.old cell).seen }
{
    if cell < cells {
        if arena::is_free(table, cell) {
            if types::serial_remains(next) {
                arena::set_cell(table, cell, 1, next);
                return Stepped {
                    next: next + 1,
                    dropped: 0,
                };
            }
            return Stepped { next, dropped: 1 };
        }
        return Stepped { next, dropped: 1 };
    }
    Stepped { next, dropped: 1 }
}

// 2: release a lease, if it is live and not protected. A step names cell and serial: it has no boot number to test.
#[tactic(auto, unfolding(model::specs::Foreign::step_release_of))]
fn step_release<G: Guard>(
    cells: u32,
    next: u32,
    table: &mut [u32],
    hold: Hold,
    guard: &G,
) -> Stepped
    requires { 3 * cells ≤ length table.old }
    ensures { (result, table.new)
        ≡ (step_release_of cells (G.protected guard.now) next table.old hold.cell hold.serial).seen }
{
    if arena::is_live(next, cells, table, hold.cell, hold.serial) {
        if guard.guards(hold) {
            return Stepped { next, dropped: 1 };
        }
        arena::release(table, hold.cell);
        return Stepped { next, dropped: 0 };
    }
    Stepped { next, dropped: 1 }
}

// 3: set a cell's waiters.
#[tactic(auto, unfolding(model::specs::Foreign::step_waiters_of))]
fn step_waiters(cells: u32, next: u32, table: &mut [u32], cell: u32, number: u32) -> Stepped
    requires { 3 * cells ≤ length table.old }
    ensures { (result, table.new) ≡ (step_waiters_of cells next table.old cell number).seen }
{
    if cell < cells {
        arena::set_waiters(table, cell, number);
        return Stepped { next, dropped: 0 };
    }
    Stepped { next, dropped: 1 }
}

// 4: set a header's health to 0 or 1.
#[tactic(auto, unfolding(model::specs::Foreign::step_health_of))]
fn step_health(headers: u32, next: u32, health: &mut [u8], header: u32, number: u32) -> Stepped
    requires { headers ≤ length health.old }
    ensures { (result, health.new) ≡ (step_health_of headers next health.old header number).seen }
{
    if header < headers {
        if number <= 1 {
            let at = header as usize;
            health[at] = number as u8;
            return Stepped { next, dropped: 0 };
        }
        return Stepped { next, dropped: 1 };
    }
    Stepped { next, dropped: 1 }
}

// One step that does not end the boundary.
// (a) Kinds stay numbers: they are words of the script that C lends, and `step_of` of `model` has them so.
#[tactic(auto, unfolding(model::specs::Foreign::step_of))]
fn step<G: Guard>(
    scope: Scope,
    next: u32,
    table: &mut [u32],
    health: &mut [u8],
    kind: u32,
    place: u32,
    number: u32,
    guard: &G,
) -> Stepped
    requires { (3 * scope.cells ≤ length table.old) × ((scope.headers ≤ length health.old) × (kind ≡ 5 → ⊥)) }
    ensures { (result, (table.new, health.new))
        ≡ (step_of (setting scope.headers scope.cells [] (G.protected guard.now))
        next table.old health.old kind place number).seen }
{
    match kind {
        0 => Stepped { next, dropped: 0 },
        1 => step_take(scope.cells, next, table, place),
        2 => {
            let hold = Hold {
                cell: place,
                serial: number,
            };
            step_release(scope.cells, next, table, hold, guard)
        }
        3 => step_waiters(scope.cells, next, table, place, number),
        4 => step_health(scope.headers, next, health, place, number),
        _ => Stepped { next, dropped: 1 },
    }
}

// ---- a boundary

// The steps from a place on, up to and including the next 5, or to the script's end.
// (a) Kinds stay numbers here and in `run_guarded`, as at `step`: words of the script that C lends.
fn run<G: Guard>(
    scope: Scope,
    flow: Flow,
    table: &mut [u32],
    health: &mut [u8],
    script: &[u32],
    guard: &G,
) -> Flow
    requires { RoomIn scope (length table.old) (length health.old) 0 (length script.now)
        × FlowBound scope.steps flow }
    ensures { (result, (table.new, health.new))
        ≡ (run_steps_of (scope.steps - flow.place) (setting scope.headers scope.cells script.now
        (G.protected guard.now)) flow table.old health.old).seen }
{
    let mut now = flow;
    for place in flow.place..scope.steps {
        let at = 3 * place;
        let kind = script[at];
        if kind == 5 {
            return Flow {
                place: place + 1,
                ..now
            };
        }
        let done = step(
            scope,
            now.next,
            table,
            health,
            kind,
            script[at + 1],
            script[at + 2],
            guard,
        );
        now = Flow {
            next: done.next,
            place: place + 1,
            dropped: now.dropped + done.dropped,
        };
    }
    now
}

// The same, where a call protects leases. Before the first release nobody asks for them, so no held lease is marked.
// (b) As one loop with marks noted where they are first asked for, a retry over a script cost 63 % more instructions.
fn run_guarded(
    scope: Scope,
    flow: Flow,
    table: &mut [u32],
    health: &mut [u8],
    script: &[u32],
    holds: &Holds<'_>,
    own: Hold,
) -> Flow
    requires { RoomIn scope (length table.old) (length health.old) 0 (length script.now)
        × FlowBound scope.steps flow }
    ensures { (result, (table.new, health.new))
        ≡ (run_steps_of (scope.steps - flow.place) (setting scope.headers scope.cells script.now
        (guards_of holds.now.held.now holds.now.taken.now holds.now.n ++ (own ∷ [])))
        flow table.old health.old).seen }
{
    let mut now = flow;
    for place in flow.place..scope.steps {
        let at = 3 * place;
        let kind = script[at];
        if kind == 5 {
            return Flow {
                place: place + 1,
                ..now
            };
        }
        if kind == 2 {
            let mut marks = [filling(holds.held.len() / 3); 256];
            note_marks(holds.held, &mut marks);
            let holding = Holding::new(holds, own, &marks);
            return run(scope, now, table, health, script, &holding);
        }
        let done = step(
            scope,
            now.next,
            table,
            health,
            kind,
            script[at + 1],
            script[at + 2],
            &Nobody,
        );
        now = Flow {
            next: done.next,
            place: place + 1,
            dropped: now.dropped + done.dropped,
        };
    }
    now
}

// A boundary that protects the held list and the leases taken. Past the script's end it is quiet, and costs one test.
#[tactic(auto, unfolding(model::specs::Foreign::boundary_of))]
pub fn boundary(
    scope: Scope,
    flow: Flow,
    table: &mut [u32],
    health: &mut [u8],
    script: &[u32],
    holds: &Holds<'_>,
) -> Flow
    requires { RoomIn scope (length table.old) (length health.old) holds.now.n (length script.now)
        × FlowBound scope.steps flow }
    ensures { (result, (table.new, health.new))
        ≡ (boundary_of (setting_of scope script.now holds.now.held.now holds.now.taken.now holds.now.n)
        flow table.old health.old).seen }
{
    if scope.steps <= flow.place {
        return flow;
    }
    // (a) No lease is this hold: law `steps_zero`, so it stands for none.
    let none = Hold { cell: 0, serial: 0 };
    // Copies for the call alone: what is lent to it from outside this branch, a quiet boundary stores too.
    let here = scope;
    let from = flow;
    let lent = *holds;
    run_guarded(here, from, table, health, script, &lent, none)
}

// The same, with a lease of the call's own protected too.
#[tactic(auto, unfolding(model::specs::Foreign::boundary_of))]
pub fn protecting_boundary(
    scope: Scope,
    flow: Flow,
    table: &mut [u32],
    health: &mut [u8],
    script: &[u32],
    holds: &Holds<'_>,
    own: Hold,
) -> Flow
    requires { RoomIn scope (length table.old) (length health.old) holds.now.n (length script.now)
        × FlowBound scope.steps flow }
    ensures { (result, (table.new, health.new))
        ≡ (boundary_of (protecting (setting_of scope script.now holds.now.held.now holds.now.taken.now holds.now.n)
        (own ∷ [])) flow table.old health.old).seen }
{
    if flow.place < scope.steps {
        let here = scope;
        let from = flow;
        let lent = *holds;
        return run_guarded(here, from, table, health, script, &lent, own);
    }
    flow
}

// ---- the checks of calls with a script, in the order of document 01's table

// 2: the script is not of whole steps or too long, or the place is past its end.
#[tactic(auto, unfolding(model::specs::Refusals::first))]
pub fn script_fault(script: &[u32], place: usize) -> Result<(), Refusal>
    ensures { result ≡ first (bad_script script.now place ∷ []) }
{
    let steps = script.len() / 3;
    if script.len() % 3 != 0 || 32768 < steps || steps < place {
        return Err(Refusal::BadScript);
    }
    Ok(())
}

// 2, and then the held list: 3 by its length, then 16 and 3 by position.
#[tactic(auto, using(laws::specs::Checks::fronts))]
pub fn lists_fault(
    head: Head,
    table: &[u32],
    script: &[u32],
    place: usize,
    held: &[u32],
) -> Result<(), Refusal>
    requires { shape_fits head (length table.now) ≡ true }
    ensures { result
        ≡ first (bad_script script.now place ∷ bad_held head table.now held.now) }
{
    script_fault(script, place)?;
    lease::held_fault(head, table, held)
}

#[tactic(auto, using(laws::specs::Checks::fronts), unfolding(model::specs::Checks::script_rules))]
pub fn script_check(
    head: Head,
    table: &[u32],
    health: &[u8],
    script: &[u32],
    place: usize,
    held: &[u32],
) -> Result<(), Refusal>
    ensures { result
        ≡ first (script_rules head table.now health.now
        script.now place held.now) }
{
    arena::arena_fault(head, table, health)?;
    lists_fault(head, table, script, place, held)
}

// ---- results of calls with a script

pub fn script_reply(head: Head, run: Run, answer: Answer) -> ScriptReply
    ensures { result ≡ script_reply head run answer }
{
    let flow = run.flow;
    ScriptReply {
        head: head.spent_to(flow.next),
        place: flow.place,
        counts: Counts {
            attempts: run.attempts,
            boundaries: run.boundaries,
            yields: run.yields,
            dropped: flow.dropped,
        },
        answer,
    }
}

// A refusal that changes nothing.
pub fn refuse_at_once(head: Head, place: usize, refusal: Refusal) -> ScriptReply
    ensures { result ≡ refused_at_once head place refusal }
{
    ScriptReply {
        head,
        place,
        counts: Counts {
            attempts: 0,
            boundaries: 0,
            yields: 0,
            dropped: 0,
        },
        answer: Answer::Refused(refusal),
    }
}

// ---- the calls

// One boundary: the script is played from its place to the next pause or its end. A step that cannot be made is dropped
// and counted; the script frees no lease of the held list. At the script's end nothing is played.
#[tactic(auto, unfolding(model::specs::Calls::environment_of, crate::specs::Model::run_once_of))]
pub fn environment(
    head: Head,
    table: &mut [u32],
    health: &mut [u8],
    script: &[u32],
    place: usize,
    held: &[u32],
) -> ScriptReply
    ensures { (result, (table.new, health.new))
        ≡ (environment_of head table.old health.old
        script.now place held.now).seen }
{
    match script_check(head, table, health, script, place, held) {
        Err(refusal) => refuse_at_once(head, place, refusal),
        Ok(()) => run_once(head, table, health, script, place, held),
    }
}

// The same, since document 01 names both (a): its held list is what it protects. A held lease with another boot number
// refuses the call with 16 and its position, one that is not live with 3 and its position.
pub fn environment_for_borrows(
    head: Head,
    table: &mut [u32],
    health: &mut [u8],
    script: &[u32],
    place: usize,
    held: &[u32],
) -> ScriptReply
    ensures { (result, (table.new, health.new))
        ≡ (environment_of head table.old health.old
        script.now place held.now).seen }
{
    environment(head, table, health, script, place, held)
}

// The boundary of a call whose checks are fine: with an empty held list nothing is protected.
fn run_alone(
    head: Head,
    table: &mut [u32],
    health: &mut [u8],
    script: &[u32],
    place: usize,
    held: &[u32],
) -> Flow
    requires { ScriptFine head (length table.old) (length health.old) (length script.now) place }
    ensures { (result, (table.new, health.new))
        ≡ (boundary_of (given head script.now (holds_of held.now)) (flow_of head.next place 0)
        table.old health.old).seen }
{
    let scope = scope_of(head, script);
    let flow = Flow {
        next: head.next,
        place,
        dropped: 0,
    };
    if held.len() == 0 {
        return run(scope, flow, table, health, script, &Nobody);
    }
    let taken = [[0; 2]; 64];
    let holds = Holds {
        held,
        taken: &taken,
        n: 0,
    };
    boundary(scope, flow, table, health, script, &holds)
}

// What the call replies.
#[tactic(auto, unfolding(crate::specs::Model::run_once_of))]
fn run_once(
    head: Head,
    table: &mut [u32],
    health: &mut [u8],
    script: &[u32],
    place: usize,
    held: &[u32],
) -> ScriptReply
    requires { ScriptFine head (length table.old) (length health.old) (length script.now) place }
    ensures { (result, (table.new, health.new))
        ≡ run_once_of head table.old health.old script.now place held.now }
{
    let after = run_alone(head, table, health, script, place, held);
    let run = Run {
        flow: after,
        attempts: 0,
        boundaries: 1,
        yields: 0,
    };
    script_reply(head, run, Answer::Done)
}
