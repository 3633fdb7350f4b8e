// Who is protected from a script's releases. A boundary asks it of each live lease that a release names.
// Functions with a `requires` are parts: calls have tested the shape, and a part tests nothing twice.
// Nothing here is reached from outside the crate.
ghost use Rattle.std.specs.Prelude.{◌≡◌, [], ◌∷◌, ◌++◌, ◌*◌, ◌/◌, ◌≤◌, List, length, replicate};
ghost use Rattle.model.specs.Arena.{is_in, holds_of};
ghost use Rattle.types.specs.declared.Hold.{Hold};
ghost use Rattle.foreign.specs.Model.{pairs_of, guards_of};
ghost use Rattle.foreign.specs.Marks.{Marked, filling_of, noting_of};

use crate::Holds;
use types::Hold;

// One walk of the script serves every guard.
pub trait Guard {
    // The leases that are protected.
    ghost protected: { Self → List Hold };

    fn guards(&self, hold: Hold) -> bool
        ensures { result ≡ is_in hold (protected self.now) };
}

// Nobody is protected: no list is looked at, and none is marked.
#[derive(Clone, Copy)]
pub struct Nobody;

impl Guard for Nobody {
    ghost protected = { λ _. [] };

    #[tactic(auto, unfolding(model::specs::Arena::is_in))]
    fn guards(&self, hold: Hold) -> bool {
        false
    }
}

// What a call protects, and a lease of its own, with marks on the held list.
#[derive(Clone, Copy)]
pub struct Holding<'a, 'm> {
    holds: Holds<'a>,
    own: Hold,
    marks: &'m [u8; 256],
    ghost marked: { ∥ Marked marks.now holds.held.now ∥₁ },
}

impl<'a, 'm> Holding<'a, 'm> {
    pub fn new(holds: &Holds<'a>, own: Hold, marks: &'m [u8; 256]) -> Holding<'a, 'm>
        requires { Marked marks.now holds.now.held.now }
        ensures holds { (result.holds.held.now ≡ holds.now.held.now) × (result.holds.taken.now ≡ holds.now.taken.now)
            × (result.holds.n ≡ holds.now.n) }
        ensures own { result.own ≡ own }
    {
        Holding {
            holds: *holds,
            own,
            marks,
        }
    }
}

impl<'a, 'm> Guard for Holding<'a, 'm> {
    ghost protected = { λ g. guards_of g.holds.held.now g.holds.taken.now g.holds.n ++ (g.own ∷ []) };

    fn guards(&self, hold: Hold) -> bool {
        if is_marked(self.holds.held, self.marks, hold) {
            return true;
        }
        if is_in_pairs(self.holds.taken, self.holds.n, hold) {
            return true;
        }
        self.own == hold
    }
}

// Whether a lease is among the first n pairs.
#[tactic(auto, unfolding(model::specs::Arena::is_in))]
fn is_in_pairs(taken: &[[u32; 2]; 64], n: usize, hold: Hold) -> bool
    requires { n ≤ 64 }
    ensures { result ≡ is_in hold (pairs_of n 0 taken.now) }
{
    for i in 0..n {
        let [cell, serial] = taken[i];
        if (Hold { cell, serial }) == hold {
            return true;
        }
    }
    false
}

// Of a list of n leases: what all marks are before any is noted, and how many are noted.
#[tactic(auto, unfolding(crate::specs::Marks::filling_of))]
pub fn filling(n: usize) -> u8
    ensures { result ≡ filling_of n }
{
    u8::from(255 < n)
}

#[tactic(auto, unfolding(crate::specs::Marks::noting_of))]
fn noting(n: usize) -> usize
    ensures { result ≡ noting_of n }
{
    if 255 < n {
        return 0;
    }
    n
}

// Marks of a held list: for each remainder of a cell number by 256, 0 where no listed lease has it, else one more than
// the position of the first that has. Noted from the end, so that the first stays; a list past a byte's numbers is
// marked as a whole. (b) A byte and not an `Option`, and noted where they stand: an array given back was copied, 22 %
// of a boundary with one release.
// (d) No instance of `marks_of` of `sorted`: a mark here is one more than a position, and 0 says that there is none.
pub fn note_marks(held: &[u32], marks: &mut [u8; 256])
    requires { marks.old ≡ replicate 256 (filling_of (length held.now / 3)) }
    ensures { Marked marks.new held.now }
{
    for i in (0..noting(held.len() / 3)).rev() {
        let at = (held[3 * i] % 256) as usize;
        marks[at] = (i + 1) as u8;
    }
}

// Whether a lease is held: without a mark it is not, and no lease is looked at; else up to the first match.
fn is_marked(held: &[u32], marks: &[u8; 256], hold: Hold) -> bool
    requires { Marked marks.now held.now }
    ensures { result ≡ is_in hold (holds_of held.now) }
{
    let at = (hold.cell % 256) as usize;
    let mark = marks[at];
    if mark == 0 {
        return false;
    }
    lease::is_in_from(held, (mark - 1) as usize, hold)
}
