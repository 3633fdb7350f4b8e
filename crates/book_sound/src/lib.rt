// Whether a setpoint book is damaged (document 02, L10), in one pass over its lines, and the numbers of a line.
// Functions with a `requires` are parts: calls have tested the head, the book's length and the slot.
// (d) n stands beside the book in each promise, with its limits: all definitions take it as a number, and a type for it
// would be opened at each.
#![tactic(auto)]

ghost use Rattle.std.specs.Prelude.{◌≡◌, ◌+◌, ◌-◌, ◌*◌, ◌<◌, ◌≤◌, length};
ghost use Rattle.book_rules.specs.Layout.{lines_of, front_of, place_at, length_at, version_at, setting_at, is_setting};
ghost use Rattle.book_rules.specs.Layout.{is_kept, is_falling, is_fitting, is_sound};
ghost use Rattle.book_sound.specs.Scan.{is_clear, scan_of, Wanted};

use setpoint::Setpoint;

// The place in line k.
pub fn place_at(book: &[u8], k: usize) -> u32
    requires { 8 * k + 8 ≤ length book.now }
    ensures { result ≡ place_at book.now k }
{
    u32::from(u16::from_le_bytes([book[8 * k], book[8 * k + 1]]))
}

// Its place and its length as one number: 65,536 times the length, and the place.
// (d) Like `version_at` but for a 4: four indices of one line are plainer than a place to add.
fn word_at(book: &[u8], k: usize) -> u32
    requires { 8 * k + 8 ≤ length book.now }
    ensures { (result ≡ place_at book.now k + 65536 * length_at book.now k)
        × (place_at book.now k < 65536) }
{
    u32::from_le_bytes([
        book[8 * k],
        book[8 * k + 1],
        book[8 * k + 2],
        book[8 * k + 3],
    ])
}

// Its version.
pub fn version_at(book: &[u8], k: usize) -> u32
    requires { 8 * k + 8 ≤ length book.now }
    ensures { result ≡ version_at book.now k }
{
    u32::from_le_bytes([
        book[8 * k + 4],
        book[8 * k + 5],
        book[8 * k + 6],
        book[8 * k + 7],
    ])
}

// Whether line k is used.
pub fn is_kept(book: &[u8], k: usize) -> bool
    requires { 8 * k + 8 ≤ length book.now }
    ensures { result ≡ is_kept book.now k }
{
    version_at(book, k) != 0
}

// Whether the version in line k is as far below its slot's newest as the line is: what the line before wants of it.
fn is_falling(book: &[u8], k: usize, wanted: u32) -> bool
    requires k_in_bounds { 8 * k + 8 ≤ length book.now }
    requires wanted { Wanted book.now k wanted }
    ensures { result ≡ is_falling book.now k }
{
    k % 4 == 0 || version_at(book, k) == wanted
}

// What the five bytes from p on mean.
pub fn setting_at(book: &[u8], p: usize) -> Option<Setpoint>
    requires { p + 5 ≤ length book.now }
    ensures { result ≡ setting_at book.now p }
{
    let word = setpoint::join(book[p + 1], book[p + 2], book[p + 3], book[p + 4]);
    setpoint::setting(book[p], word)
}

// Whether line k of n slots, and its body, fit the rules; `places` says how many places behind the contents have five
// bytes. Its word less the least one that fits, which wraps below 0, is below that number only if length and place
// both fit.
fn is_fitting(n: usize, places: usize, book: &[u8], k: usize) -> bool
    requires n_bound { n ≤ 64 }
    requires k_in_bounds { 8 * k + 8 ≤ length book.now }
    requires book_len_bound { length book.now ≤ 34788 }
    requires places_value { places ≡ length book.now - front_of n - 4 }
    ensures { result ≡ is_fitting n book.now k }
{
    let word = word_at(book, k);
    if !is_kept(book, k) {
        return word == 0;
    }
    let d = (word as usize).wrapping_sub(327680 + 32 * n);
    d < places && setting_at(book, 32 * n + d).is_some()
}

// How far behind the contents the body of a line that fits stands.
fn behind(n: usize, book: &[u8], k: usize) -> u16
    requires n_bound { n ≤ 64 }
    requires k_in_bounds { 8 * k + 8 ≤ length book.now }
    requires k_value { length_at book.now k ≡ 5 }
    requires n_bound_2 { front_of n ≤ place_at book.now k }
    ensures { result ≡ place_at book.now k - front_of n }
{
    (word_at(book, k) as usize - (327680 + 32 * n)) as u16
}

// Whether a body from offset r of cell c on overlaps none that is marked.
fn is_clear(marks: &[u8], c: usize, r: u8) -> bool
    requires c_in_bounds { c + 2 < length marks.now }
    requires r_bound { r < 5 }
    ensures { result ≡ is_clear marks.now c r }
{
    marks[c + 1] == 0 && marks[c] <= r + 1 && (marks[c + 2] == 0 || r + 1 <= marks[c + 2])
}

// Whether no line or kept body fits no rule, and no two bodies overlap, with marks that begin as zeros: from line 0 on,
// each line fits, and its body overlaps none of a line before. The marks become those of the lines seen.
// (a) A mark stays a byte, 0 for none: memory is fixed, an `Option<u8>` is two, and marks are most of a write's stack.
pub fn scan(n: usize, book: &[u8], marks: &mut [u8]) -> bool
    requires n_bound { n ≤ 64 }
    requires n_in_bounds { front_of n ≤ length book.now }
    requires book_len_bound { length book.now ≤ front_of n + 32740 }
    requires in_bounds { 6550 ≤ length marks.old }
    ensures { (result, marks.new) ≡ scan_of n book.now (lines_of n) 0 marks.old }
{
    let places = book.len().saturating_sub(32 * n + 4);
    let mut wanted = 0;
    for k in 0..4 * n {
        if !is_falling(book, k, wanted) || !is_fitting(n, places, book, k) {
            return false;
        }
        wanted = version_at(book, k).saturating_sub(1);
        if is_kept(book, k) {
            let d = behind(n, book, k);
            let c = usize::from(d / 5);
            let r = (d % 5) as u8;
            if !is_clear(marks, c, r) {
                return false;
            }
            marks[c + 1] = r + 1;
        }
    }
    true
}

// The same, with marks of its own.
pub fn is_sound(n: usize, book: &[u8]) -> bool
    requires le_n { 1 ≤ n }
    requires n_bound { n ≤ 64 }
    requires n_in_bounds { front_of n ≤ length book.now }
    requires book_len_bound { length book.now ≤ 32768 }
    ensures { result ≡ is_sound n book.now }
{
    let mut marks = [0; 6550];
    scan(n, book, &mut marks)
}
