// The calls of the setpoint book (document 02, L2 and L10): preparing, writing, reading. `book_rules` has the rules.
// Functions with a `requires` are parts: calls have tested the head, the book's length and the slot, and a part tests
// nothing twice. No other crate calls a part of this file.
#![tactic(auto)]

ghost use Rattle.std.specs.Prelude.{◌≡◌, ◌+◌, ◌*◌, ◌≤◌, ◌<◌, true, length};
ghost use Rattle.model.specs.Arena.{head_fits, shape_fits, hold_in};
ghost use Rattle.setpoint.specs.Codec.{has_body};
ghost use Rattle.book_rules.specs.Layout.{slots_of, front_of, place_at};
ghost use Rattle.book_rules.specs.Rules.{first_fault, is_bad_book, is_bad_slot, is_holder, claim_rules, open_rules};
ghost use Rattle.book_rules.specs.Calls.{prepare_book_of, write_setpoint_of, line_read, read_version_of};
ghost use Rattle.book_rules.specs.Calls.{read_setpoint_of};
ghost use Rattle.book.specs.Model.{write_over_of, read_kept_of, Readable};

use book_rules::{BookAnswer, BookCheck, BookDone, BookRefusal};
use setpoint::Setpoint;
use types::{Head, Lease};

// The last version. A slot that has reached it is written no more.
const LAST_VERSION: u32 = u32::MAX;

// Whether the head keeps the arena's rules: all that a preparation and a read are given of the arena.
fn head_fits(head: Head) -> bool
    ensures { result ≡ head_fits head }
{
    let h = head.headers;
    let b = head.buckets;
    if 64 < h || 1024 < b {
        return false;
    }
    head.shape_fits((3 * (h * b)) as usize)
}

// One slot for each cell, at most the first 64.
fn slots(head: Head) -> usize
    requires { head_fits head ≡ true }
    ensures { result ≡ slots_of head }
{
    (head.headers * head.buckets).min(64) as usize
}

// Shorter than its contents, or over the limit.
fn is_bad_book(n: usize, size: usize) -> bool
    requires { n ≤ 64 }
    ensures { result ≡ is_bad_book n size }
{
    size < 32 * n || 32768 < size
}

fn is_bad_slot(n: usize, size: usize, slot: usize) -> bool
    requires { n ≤ 64 }
    ensures { result ≡ is_bad_slot n size slot }
{
    is_bad_book(n, size) || n <= slot
}

// Sets every byte of the book to 0, whatever stood there. Refused with 1 or BadSlot it changes no byte.
pub fn prepare_book(head: Head, book: &mut [u8]) -> BookAnswer
    ensures { (result, book.new) ≡ prepare_book_of head book.old }
{
    if !head_fits(head) {
        return Err(BookRefusal::BadShape);
    }
    if is_bad_book(slots(head), book.len()) {
        return Err(BookRefusal::BadSlot);
    }
    book.fill(0);
    Ok(BookDone::Done)
}

// ---- writing

// Whether a lease of the head's own boot number is live and on the slot's cell.
fn is_holder(head: Head, table: &[u32], slot: u32, lease: Lease) -> bool
    requires { shape_fits head (length table.now) ≡ true }
    ensures { result ≡ is_holder head table.now slot (hold_in lease) }
{
    lease::is_live(head, table, lease.cell, lease.serial) && lease.cell == slot
}

// The checks of a write on what it is given: 1, BadSlot, 16, 12, NotFinite.
fn claim_check(
    head: Head,
    table: &[u32],
    size: usize,
    slot: u32,
    lease: Lease,
    setpoint: Setpoint,
) -> BookCheck
    ensures { result ≡ first_fault (claim_rules head table.now size slot lease setpoint) }
{
    if !head.shape_fits(table.len()) {
        return Err(BookRefusal::BadShape);
    }
    if is_bad_slot(slots(head), size, slot as usize) {
        return Err(BookRefusal::BadSlot);
    }
    if head.is_stale(lease) {
        return Err(BookRefusal::StaleBoot);
    }
    if !is_holder(head, table, slot, lease) {
        return Err(BookRefusal::NotHeld);
    }
    if !setpoint.has_body() {
        return Err(BookRefusal::NotFinite);
    }
    Ok(())
}

// Over what the book says: refused, or the oldest dropped and one version more. One run of marks serves the test of the
// book and the slide: it is most of the stack that a write takes.
fn write_over(n: usize, book: &mut [u8], slot: usize, s: Setpoint) -> BookAnswer
    requires le_n { 1 ≤ n }
    requires n_bound { n ≤ 64 }
    requires slot_lt_n { slot < n }
    requires n_in_bounds { front_of n ≤ length book.old }
    requires book_len_bound { length book.old ≤ 32768 }
    requires s_value { has_body s ≡ true }
    ensures { (result, book.new) ≡ write_over_of n book.old slot s }
{
    let mut marks = [0; 6550];
    if !book_sound::scan(n, book, &mut marks) {
        return Err(BookRefusal::DamagedBook);
    }
    let newest = book_sound::version_at(book, 4 * slot);
    if newest == LAST_VERSION {
        return Err(BookRefusal::VersionsSpent);
    }
    let kept = book_enter::staying(n, book, slot);
    if book.len() < 32 * n + 5 * kept + 5 {
        return Err(BookRefusal::BookFull);
    }
    book_enter::unmark_oldest(n, book, slot, &mut marks);
    book_enter::drop_oldest(book, slot);
    let moved = book_enter::put_over(n, kept, book, &mut marks, slot, s, newest + 1);
    Ok(BookDone::Written(newest + 1, moved))
}

// Writes a setpoint to a slot by a live lease on its cell, and answers the new version and the bytes moved. The slot
// keeps its newest four; kept bodies of all slots slide to the front only where there is no room behind the last. A
// lease with another boot number than the head's is StaleBoot, before NotHeld. BookFull comes last. Refused it changes
// no byte. The table is only read; the health is not taken.
pub fn write_setpoint(
    head: Head,
    table: &[u32],
    book: &mut [u8],
    slot: u32,
    lease: Lease,
    setpoint: Setpoint,
) -> BookAnswer
    ensures { (result, book.new)
        ≡ write_setpoint_of head table.now book.old slot lease setpoint }
{
    claim_check(head, table, book.len(), slot, lease, setpoint)?;
    write_over(slots(head), book, slot as usize, setpoint)
}

// ---- reading

// The checks of a read before its version: 1, BadSlot, DamagedBook.
fn open_check(head: Head, book: &[u8], slot: u32) -> BookCheck
    ensures { result ≡ first_fault (open_rules head book.now slot) }
{
    if !head_fits(head) {
        return Err(BookRefusal::BadShape);
    }
    let n = slots(head);
    if is_bad_slot(n, book.len(), slot as usize) {
        return Err(BookRefusal::BadSlot);
    }
    if !book_sound::is_sound(n, book) {
        return Err(BookRefusal::DamagedBook);
    }
    Ok(())
}

// What line k holds, with its version.
fn line_read(book: &[u8], k: usize, version: u32) -> BookAnswer
    requires k_in_bounds { 8 * k + 8 ≤ length book.now }
    requires k_in_bounds_2 { place_at book.now k + 5 ≤ length book.now }
    ensures { result ≡ line_read book.now k version }
{
    let place = book_sound::place_at(book, k) as usize;
    let Some(s) = book_sound::setting_at(book, place) else {
        return Err(BookRefusal::DamagedBook);
    };
    Ok(BookDone::Setting(s, version))
}

// A version of a slot, of a book that is open to reads; NeverWritten if it is not kept.
fn read_kept(book: &[u8], slot: usize, version: u32) -> BookAnswer
    requires slot_in_bounds { 32 * slot + 32 ≤ length book.now }
    requires readable { Readable book.now slot }
    ensures { result ≡ read_kept_of book.now slot version }
{
    let newest = book_sound::version_at(book, 4 * slot);
    if version == 0 || newest < version || 4 <= newest - version {
        return Err(BookRefusal::NeverWritten);
    }
    line_read(book, 4 * slot + (newest - version) as usize, version)
}

// A version of a slot: its setpoint. NeverWritten for one that the slot does not keep: 0, not yet written, or older
// than the newest four. DamagedBook by the whole book. It takes no table: a read needs no lease.
pub fn read_version(head: Head, book: &[u8], slot: u32, version: u32) -> BookAnswer
    ensures { result ≡ read_version_of head book.now slot version }
{
    open_check(head, book, slot)?;
    read_kept(book, slot as usize, version)
}

// The newest version of a slot: its setpoint and its number. NeverWritten where there is none.
pub fn read_setpoint(head: Head, book: &[u8], slot: u32) -> BookAnswer
    ensures { result ≡ read_setpoint_of head book.now slot }
{
    open_check(head, book, slot)?;
    let newest = book_sound::version_at(book, 4 * slot as usize);
    read_kept(book, slot as usize, newest)
}
