// The parts of a write on a setpoint book (document 02, L2 and L10): what stays after the drop, the drop, the room
// behind the last body, the append. All functions are parts: a call has tested the book, and that there is room.
#![tactic(auto)]

ghost use Rattle.std.specs.Prelude.{◌≡◌, ◌+◌, ◌*◌, ◌≤◌, ◌<◌, true, length};
ghost use Rattle.std.proofs.lemmas.List.Edits.{sets};
ghost use Rattle.setpoint.specs.Codec.{has_body};
ghost use Rattle.book_rules.specs.Layout.{lines_of, front_of, line_of};
ghost use Rattle.book_rules.specs.Writing.{drop_oldest_of, kept_of, end_of, append_of, put_over_of};
ghost use Rattle.book_rules.specs.Sound.{Fits};
ghost use Rattle.book_rules.specs.Wrote.{staying_of};
ghost use Rattle.book_sound.specs.Scan.{Marked};
ghost use Rattle.book_enter.specs.Steps.{OldestWithin, OldestLies, unmark_oldest_of, staying_at, later_of, shift_of};

use setpoint::Setpoint;

// ---- bytes

// The line of a body at a place.
fn line(place: u32, version: u32) -> [u8; 8]
    requires { place < 65536 }
    ensures { result ≡ line_of place version }
{
    let [low, high] = (place as u16).to_le_bytes();
    let [a, b, c, d] = version.to_le_bytes();
    [low, high, 5, 0, a, b, c, d]
}

// Bytes to a place.
fn put_bytes(book: &mut [u8], at: usize, bytes: &[u8])
    requires { at + length bytes.now ≤ length book.old }
    ensures { book.new ≡ sets book.old at bytes.now }
{
    for i in 0..bytes.len() {
        book[at + i] = bytes[i];
    }
}

// ---- the parts of a write

// Whether line k counts among those that a write on the slot leaves: 1, or 0.
fn staying_at(book: &[u8], slot: usize, k: usize) -> usize
    requires slot_bound { slot < 64 }
    requires k_in_bounds { 8 * k + 8 ≤ length book.now }
    ensures { result ≡ staying_at book.now slot k }
{
    usize::from(book_sound::is_kept(book, k) && k != 4 * slot + 3)
}

// How many bodies a write on the slot leaves, the new one not counted.
pub fn staying(n: usize, book: &[u8], slot: usize) -> usize
    requires n_bound { n ≤ 64 }
    requires slot_lt_n { slot < n }
    requires n_in_bounds { front_of n ≤ length book.now }
    ensures { result ≡ staying_of n book.now slot }
{
    let mut total = 0;
    for k in 0..4 * n {
        total += staying_at(book, slot, k);
    }
    total
}

// The mark of the slot's oldest of four becomes 0.
pub fn unmark_oldest(n: usize, book: &[u8], slot: usize, marks: &mut [u8])
    requires le_n { 1 ≤ n }
    requires n_bound { n ≤ 64 }
    requires slot_in_bounds { 32 * slot + 32 ≤ length book.now }
    requires book_len_bound { length book.now ≤ 32768 }
    requires oldest_lies { OldestLies n book.now slot }
    requires in_bounds { 6550 ≤ length marks.old }
    ensures { marks.new ≡ unmark_oldest_of n book.now slot marks.old }
{
    let k = 4 * slot + 3;
    if !book_sound::is_kept(book, k) {
        return;
    }
    marks[(book_sound::place_at(book, k) as usize - 32 * n) / 5 + 1] = 0;
}

// The slot's oldest of four becomes zeros, line and body.
pub fn drop_oldest(book: &mut [u8], slot: usize)
    requires slot_in_bounds { 32 * slot + 32 ≤ length book.old }
    requires book_len_bound { length book.old ≤ 32768 }
    requires oldest_within { OldestWithin book.old slot }
    ensures { book.new ≡ drop_oldest_of book.old slot }
{
    let k = 4 * slot + 3;
    if !book_sound::is_kept(book, k) {
        return;
    }
    let place = book_sound::place_at(book, k) as usize;
    book[place..place + 5].fill(0);
    book[8 * k..8 * k + 8].fill(0);
}

// The later of an end and of where line k's body ends.
fn later(book: &[u8], k: usize, end: usize) -> usize
    requires { 8 * k + 8 ≤ length book.now }
    ensures { result ≡ later_of book.now k end }
{
    if !book_sound::is_kept(book, k) {
        return end;
    }
    end.max(book_sound::place_at(book, k) as usize + 5)
}

// Where the last kept body ends; with none, where the contents end.
fn end(n: usize, book: &[u8]) -> usize
    requires n_bound { n ≤ 64 }
    requires n_in_bounds { front_of n ≤ length book.now }
    ensures { result ≡ end_of n book.now }
{
    let mut last = 32 * n;
    for k in 0..4 * n {
        last = later(book, k, last);
    }
    last
}

// A line to a place in the contents, and the three that stood from there on behind it.
fn shift(book: &mut [u8], at: usize, line: &[u8])
    requires line_len { length line.now ≡ 8 }
    requires at_in_bounds { at + 32 ≤ length book.old }
    ensures { book.new ≡ shift_of book.old at line.now }
{
    book.copy_within(at..at + 24, at + 8);
    put_bytes(book, at, line);
}

// A setpoint's body to a place, and its line before the slot's others.
fn append(book: &mut [u8], slot: usize, s: Setpoint, version: u32, place: usize)
    requires slot_in_bounds { 32 * slot + 32 ≤ length book.old }
    requires place_in_bounds { place + 5 ≤ length book.old }
    requires book_len_bound { length book.old ≤ 32768 }
    requires s_value { has_body s ≡ true }
    ensures { book.new ≡ append_of book.old slot s version place }
{
    let newest = line(place as u32, version);
    shift(book, 32 * slot, &newest);
    put_bytes(book, place, &s.body());
}

// A setpoint into a book whose slot has at most three versions and whose kept bodies leave room for one more: behind
// the last, if there is room, else after a compaction. Answers the bytes moved. The marks are those of the book.
pub fn put_over(
    n: usize,
    kept: usize,
    book: &mut [u8],
    marks: &mut [u8],
    slot: usize,
    s: Setpoint,
    version: u32,
) -> u32
    requires le_n { 1 ≤ n }
    requires n_bound { n ≤ 64 }
    requires slot_lt_n { slot < n }
    requires book_len_bound { length book.old ≤ 32768 }
    requires fits { Fits n book.old }
    requires kept_value { kept ≡ kept_of n book.old }
    requires kept_in_bounds { front_of n + 5 * kept + 5 ≤ length book.old }
    requires s_value { has_body s ≡ true }
    requires marked { Marked n book.old 6548 (lines_of n) marks.old }
    ensures { (result, book.new) ≡ put_over_of n book.old slot s version }
{
    let last = end(n, book);
    if book.len() < last + 5 {
        let moved = book_compact::compact(n, book, marks);
        append(book, slot, s, version, 32 * n + 5 * kept);
        return moved;
    }
    append(book, slot, s, version, last);
    0
}
