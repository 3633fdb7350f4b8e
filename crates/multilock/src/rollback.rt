// The rollback: what was taken is given back, last first.
// Functions with a `requires` are parts: calls have tested the shape, and a part tests nothing twice.
// Nothing here is reached from outside the crate.
ghost use Rattle.std.specs.Prelude.{◌≡◌, [], ℕ, ◌<◌, length, get_or};
ghost use Rattle.model.specs.Arena.{holds_of};
ghost use Rattle.model.specs.Lock.{give_back_of};
ghost use Rattle.foreign.specs.Model.{pairs_of, in_scope, RoomIn};
ghost use Rattle.bucket.specs.Bounds.{call_most};
ghost use Rattle.bucket.specs.Laws.{RunBound};
ghost use Rattle.multilock.specs.Locks.{roll_back_of};

use foreign::{Holds, Scope};
use types::{Answer, Ended, Refusal, Run};

// Last first; the pairs before the one released stay protected.
// (d) Beside `give_back` of `release`: pairs are given back here, and words of a list there.
fn give_pairs(
    scope: Scope,
    start: Run,
    table: &mut [u32],
    health: &mut [u8],
    script: &[u32],
    held: &[u32],
    taken: [[u32; 2]; 64],
    n: usize,
) -> Run
    requires { RoomIn scope (length table.old) (length health.old) n (length script.now)
        × (RunBound scope.steps call_most start × ((i : ℕ) → i < n → get_or (get_or taken i []) 0 0 < scope.cells)) }
    ensures { (result, (table.new, health.new))
        ≡ (give_back_of n (in_scope scope script.now (holds_of held.now)) (pairs_of n 0 taken)
        start table.old health.old).seen }
{
    let mut run = start;
    for k in (0..n).rev() {
        let cell = taken[k][0];
        let before = Holds {
            held,
            taken: &taken,
            n: k,
        };
        run = release::give_one(scope, run, table, health, script, &before, cell);
    }
    run
}

// A refusal at a position: everything taken is given back.
#[tactic(auto, unfolding(crate::specs::Locks::roll_back_of))]
pub fn roll_back(
    scope: Scope,
    run: Run,
    table: &mut [u32],
    health: &mut [u8],
    script: &[u32],
    held: &[u32],
    taken: [[u32; 2]; 64],
    n: usize,
    refusal: Refusal,
) -> Ended
    requires { RoomIn scope (length table.old) (length health.old) n (length script.now)
        × (RunBound scope.steps call_most run × ((i : ℕ) → i < n → get_or (get_or taken i []) 0 0 < scope.cells)) }
    ensures { (result, (table.new, health.new))
        ≡ roll_back_of (in_scope scope script.now (holds_of held.now)) (pairs_of n 0 taken)
        refusal n run table.old health.old }
{
    let after = give_pairs(scope, run, table, health, script, held, taken, n);
    Ended {
        run: after,
        answer: Answer::RefusedAt(refusal, n),
    }
}
