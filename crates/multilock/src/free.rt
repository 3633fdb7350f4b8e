// The first keys, as long as each is free: past the script's end every boundary is quiet, so such a key is granted at
// its first attempt, with three boundaries, and nothing but its cell and the next serial changes.
// Functions with a `requires` are parts: calls have tested the shape, and a part tests nothing twice.
// Nothing here is reached from outside the crate.
ghost use Rattle.std.specs.Prelude.{◌≡◌, ◌+◌, ◌*◌, ◌<◌, ◌≤◌, length};
ghost use Rattle.model.specs.Arena.{last_serial};
ghost use Rattle.bucket.specs.Quiet.{Few};
ghost use Rattle.multilock.specs.Free.{is_open_at, is_open, freed_run, FreeFits, KeysFit, Freed, Begun};

use foreign::Scope;
use types::{Flow, Run};

// Whether an attempt gets this cell: nobody waits, it is free, and a serial remains.
#[tactic(auto, unfolding(crate::specs::Free::is_open_at))]
fn is_open_at(next: u32, table: &[u32], cell: u32) -> bool
    requires { 3 * cell + 2 < length table.now }
    ensures { result ≡ is_open_at next table.now cell }
{
    arena::waiters_at(table, cell) == 0
        && arena::is_free(table, cell)
        && types::serial_remains(next)
}

// Whether an attempt by key gets one: its header is there and healthy, its bucket in range, and its cell open.
#[tactic(auto, unfolding(crate::specs::Free::is_open))]
fn is_open(scope: Scope, next: u32, table: &[u32], health: &[u8], header: u32, bucket: u32) -> bool
    requires { FreeFits scope (length table.now) (length health.now) }
    ensures { result
        ≡ is_open scope.headers scope.buckets next table.now health.now header bucket }
{
    header < scope.headers
        && health[header as usize] == 0
        && bucket < scope.buckets
        && is_open_at(next, table, header * scope.buckets + bucket)
}

// The keys before the first that is not open, taken and noted; how many they are.
fn take_free(
    scope: Scope,
    next: u32,
    table: &mut [u32],
    health: &[u8],
    registry: &[u32],
    keys: &[u32],
    n: usize,
    taken: &mut [[u32; 2]; 64],
) -> usize
    requires { FreeFits scope (length table.old) (length health.now)
        × (KeysFit n registry.now keys.now × (length taken.old ≡ 64)) }
    ensures { Freed scope next n registry.now keys.now
        table.old health.now result taken.new table.new }
{
    let mut serial = next;
    for p in 0..n {
        let binding = keys[2 * p];
        let bucket = keys[2 * p + 1];
        let header = registry[binding as usize];
        if !is_open(scope, serial, table, health, header, bucket) {
            return p;
        }
        let cell = header * scope.buckets + bucket;
        arena::set_cell(table, cell, 1, serial);
        taken[p] = [cell, serial];
        serial += 1;
    }
    n
}

// The same before a script's end too: there, none.
pub fn free_first(
    scope: Scope,
    start: Run,
    table: &mut [u32],
    health: &[u8],
    registry: &[u32],
    keys: &[u32],
    n: usize,
    taken: &mut [[u32; 2]; 64],
) -> usize
    requires { FreeFits scope (length table.old) (length health.now)
        × (KeysFit n registry.now keys.now × (length taken.old ≡ 64)) }
    ensures { Begun scope start n registry.now keys.now
        table.old health.now result taken.new table.new }
{
    let flow = start.flow;
    if flow.place < scope.steps {
        return 0;
    }
    take_free(scope, flow.next, table, health, registry, keys, n, taken)
}

// The run after so many of them.
pub fn freed(start: Run, p: usize) -> Run
    requires { (p ≤ 64) × ((start.flow.next + p ≤ last_serial) × Few 0 start) }
    ensures { result ≡ freed_run start p }
{
    let flow = start.flow;
    Run {
        flow: Flow {
            next: flow.next + p as u32,
            ..flow
        },
        attempts: start.attempts + p,
        boundaries: start.boundaries + 3 * p,
        ..start
    }
}
