// Marks on a list of entries of STRIDE words each, the first a cell number: of cells (1), or of leases (3). For each
// remainder of a cell number by 256, the position of the first entry that has it, and 0 where none has. They are noted
// from the end, so that the first stays; a byte has the remainder of its position by 256, which is not behind it.
// Functions with a `requires` are parts: calls have tested the shape, and a part tests nothing twice.
// Nothing here is reached from outside the crate.
ghost use Rattle.std.specs.Prelude.{◌≡◌, ℕ, ◌*◌, ◌<◌, ◌≢◌, get_or};
ghost use Rattle.sorted.specs.Marks.{Marked, Found, mark_of};

pub fn marks_of<const STRIDE: usize>(list: &[u32]) -> [u8; 256]
    requires { 0 < STRIDE }
    ensures { Marked STRIDE result list.now 0 }
{
    let mut marks = [0; 256];
    for i in (0..list.len() / STRIDE).rev() {
        let at = (list[STRIDE * i] % 256) as usize;
        marks[at] = (i % 256) as u8;
    }
    marks
}

// Where to begin to look for a cell.
pub fn mark_of(marks: &[u8; 256], cell: u32) -> usize
    ensures { result ≡ mark_of marks.now cell }
{
    usize::from(marks[(cell % 256) as usize])
}

// Where the first entry of a cell stands, if there is one, among those from a position on; before it is none.
pub fn entry_of<const STRIDE: usize>(list: &[u32], from: usize, cell: u32) -> Option<usize>
    requires { (0 < STRIDE) × ((i : ℕ) → i < from → get_or list.now (STRIDE * i) 0 ≢ cell) }
    ensures { Found STRIDE list.now cell result }
{
    for i in from..list.len() / STRIDE {
        if list[STRIDE * i] == cell {
            return Some(i);
        }
    }
    None
}
