// Compaction of a setpoint book (document 02, L10): kept bodies slide to the front in one pass, and the lines follow.
// All functions are parts: the book fits its rules, its bodies leave the room that a write needs, and the scan of crate
// `book_sound` has marked them.
#![tactic(auto)]

ghost use Rattle.std.specs.Prelude.{◌≡◌, ◌+◌, ◌*◌, ◌≤◌, ◌<◌, length};
ghost use Rattle.book_rules.specs.Layout.{lines_of, front_of};
ghost use Rattle.book_rules.specs.Writing.{kept_of};
ghost use Rattle.book_rules.specs.Sound.{Fits};
ghost use Rattle.book_sound.specs.Scan.{Marked};
ghost use Rattle.book_compact.specs.Slide.{moved_to, walk_of, Within};
ghost use Rattle.book_compact.specs.Lines.{Lying, LineLies, put_place_of, put_places_of, compacted_of};

// A body from p to q, not behind p. What is vacated becomes zeros.
fn move_body(book: &mut [u8], p: usize, q: usize)
    requires p_in_bounds { p + 5 ≤ length book.old }
    requires q_le_p { q ≤ p }
    ensures { book.new ≡ moved_to book.old p q }
{
    let body = [book[p], book[p + 1], book[p + 2], book[p + 3], book[p + 4]];
    book[p..p + 5].fill(0);
    book[q..q + 5].copy_from_slice(&body);
}

// The bodies of the marked cells slide to the front, in the order of their places. The rank of each takes the place of
// its mark: a book has at most 256 bodies, so a rank fits a byte.
// (a) Marks and ranks share their bytes: memory is fixed (`scan` of `book_sound`).
fn walk(n: usize, cells: usize, book: &mut [u8], marks: &mut [u8])
    requires n_bound { n ≤ 64 }
    requires cells_bound { cells ≤ 6548 }
    requires cells_in_bounds { cells + 2 ≤ length marks.old }
    requires within { Within n marks.old cells (length book.old) }
    ensures { (book.new, marks.new)
        ≡ walk_of n cells book.old marks.old }
{
    let mut rank = 0;
    for c in 0..cells {
        let mark = usize::from(marks[c + 1]);
        if mark != 0 {
            marks[c + 1] = (rank % 256) as u8;
            move_body(book, 32 * n + 5 * c + (mark - 1), 32 * n + 5 * rank);
            rank += 1;
        }
    }
}

// Line k, if it is used, gets its body's new place. Answers the bytes that moved: 5, or 0.
fn put_place(n: usize, ranks: &[u8], book: &mut [u8], k: usize) -> u32
    requires n_bound { n ≤ 64 }
    requires k_in_bounds { 8 * k + 8 ≤ length book.old }
    requires line_lies { LineLies n book.old k }
    requires in_bounds { 6550 ≤ length ranks.now }
    ensures { (result, book.new) ≡ put_place_of n ranks.now book.old k }
{
    if !book_sound::is_kept(book, k) {
        return 0;
    }
    let old = book_sound::place_at(book, k);
    let rank = ranks[(old as usize - 32 * n) / 5 + 1];
    let place = 32 * n as u32 + 5 * u32::from(rank);
    book[8 * k..8 * k + 2].copy_from_slice(&(place as u16).to_le_bytes());
    if place == old { 0 } else { 5 }
}

// Every line. Answers the bytes moved.
fn put_places(n: usize, ranks: &[u8], book: &mut [u8]) -> u32
    requires n_bound { n ≤ 64 }
    requires n_in_bounds { front_of n ≤ length book.old }
    requires lying { Lying n book.old }
    requires in_bounds { 6550 ≤ length ranks.now }
    ensures { (result, book.new) ≡ put_places_of n ranks.now book.old }
{
    let mut moved = 0;
    for k in 0..4 * n {
        moved += put_place(n, ranks, book, k);
    }
    moved
}

// The kept bodies slide to the front, each used line gets its body's new place. Answers the bytes moved. The marks are
// those of the book; what they become is of no use.
pub fn compact(n: usize, book: &mut [u8], marks: &mut [u8]) -> u32
    requires le_n { 1 ≤ n }
    requires n_bound { n ≤ 64 }
    requires book_len_bound { length book.old ≤ 32768 }
    requires fits { Fits n book.old }
    requires book_in_bounds { front_of n + 5 * kept_of n book.old ≤ length book.old }
    requires marked { Marked n book.old 6548 (lines_of n) marks.old }
    ensures { (result, book.new) ≡ compacted_of n book.old }
{
    let cells = (book.len() - 32 * n + 4) / 5;
    walk(n, cells, book, marks);
    put_places(n, marks, book)
}
