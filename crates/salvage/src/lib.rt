// Salvage after a warm restart (document 02, L6). Each function but `salvage` is a part: it may have a `requires`,
// which its callers prove. What would be written is counted first, so that ReportFull is known before the first change;
// then each cell is read once, listed and mended, and only listed where there is nothing to mend.
#![tactic(auto)]

ghost use Rattle.std.specs.Prelude.{◌≡◌, ◌+◌, ◌*◌, ◌<◌, ◌≤◌, length, get_or};
ghost use Rattle.std.proofs.lemmas.List.Edits.{sets};
ghost use Rattle.model.specs.Arena.{is_held, cells_of};
ghost use Rattle.model.specs.Salvage.{mended_byte, change_of, held_from};
ghost use Rattle.model.specs.Salvage.{changes_of, entries_of, left_held, concluded, mend_of, go_over_of, salvage_of};
ghost use Rattle.laws.specs.Shape.{Shaped};
ghost use Rattle.laws.specs.Salvage.{changed_of};
ghost use Rattle.salvage.specs.Laws.{zero_in, zeros_of, count_held_of, tally_cells, count_bytes_of, tally_of};
ghost use Rattle.salvage.specs.Laws.{changes_in, held_in, cleared_of, mended_in, cell_entries, mended_cells};
ghost use Rattle.salvage.specs.Laws.{mended_at, byte_entries, mended_bytes};
ghost use Rattle.salvage.specs.Laws.{laid_of, used_in, used_from};

use types::{Head, SalvageRefusal, SalvageReply};

// How many words or bytes change, and how many cells are held.
#[derive(Clone, Copy)]
struct Tally {
    changes: usize,
    left: usize,
}

// Where the entries of the report end, and those of the list.
#[derive(Clone, Copy)]
struct Ends {
    at: usize,
    left: usize,
}

// ---- counting

// 1 for a word that is 0; for a byte that changes.
// (d) Words and bytes go apart here and in mending: a word becomes 0 and a byte 1.
#[tactic(auto, unfolding(crate::specs::Laws::zero_in))]
fn zero(word: u32) -> u32
    ensures { result ≡ zero_in word }
{
    u32::from(word == 0)
}

#[tactic(auto, unfolding(laws::specs::Salvage::changed_of, model::specs::Salvage::mended_byte))]
fn changed_byte(byte: u8) -> usize
    ensures { result ≡ changed_of byte (mended_byte byte) }
{
    usize::from(1 < byte)
}

// Whether a cell of this bit and owner is held; a mended one is exactly if it was. One test asks for both bounds of the
// owner: 0 is nobody's serial, and less 1 it wraps round to the largest number.
#[tactic(auto, unfolding(model::specs::Arena::is_held))]
fn is_held(next: u32, bit: u32, owner: u32) -> bool
    ensures { result ≡ is_held next bit owner }
{
    bit == 1 && owner.wrapping_sub(1) < next.saturating_sub(1)
}

// Words of the table that are 0. The count is as wide as they are: so the compiler counts several at once.
fn count_zeros(table: &[u32]) -> u32
    requires { length table.now ≤ 12288 }
    ensures { result ≡ zeros_of table.now }
{
    let mut count = 0;
    for &word in table {
        count += zero(word);
    }
    count
}

// The count of held cells with one cell more. Of a free cell only the bit is read here.
fn add_held(next: u32, table: &[u32], cell: u32, count: usize) -> usize
    requires { (3 * cell + 2 < length table.now) × (count ≤ 4096) }
    ensures { result ≡ count + length (held_in next table.now cell) }
{
    let bit = arena::bit_at(table, cell);
    if bit != 1 {
        return count;
    }
    let owner = arena::owner_at(table, cell);
    count + usize::from(is_held(next, bit, owner))
}

// Cells that are held.
fn count_held(next: u32, table: &[u32], cells: u32) -> usize
    requires { (length table.now ≡ 3 * cells) × (cells ≤ 4096) }
    ensures { result ≡ count_held_of next cells table.now }
{
    let mut count = 0;
    for cell in 0..cells {
        count = add_held(next, table, cell, count);
    }
    count
}

// Both counts of all cells. A held cell keeps bit and owner, and neither is 0; every other word that is not 0 changes.
fn count_cells(next: u32, table: &[u32], cells: u32) -> Tally
    requires { (length table.now ≡ 3 * cells) × (cells ≤ 4096) }
    ensures { result ≡ tally_cells next cells table.now }
{
    let left = count_held(next, table, cells);
    let zeros = count_zeros(table) as usize;
    Tally {
        changes: table.len() - zeros - 2 * left,
        left,
    }
}

// Health bytes that change.
fn count_bytes(health: &[u8]) -> usize
    ensures { result ≡ count_bytes_of health.now }
{
    let mut count = 0;
    for &byte in health {
        count += changed_byte(byte);
    }
    count
}

// How many entries report and list need.
fn count_all(head: Head, table: &[u32], health: &[u8]) -> Tally
    requires { Shaped head (length table.now) × (length health.now ≡ head.headers) }
    ensures { result ≡ tally_of head table.now health.now }
{
    let all = count_cells(head.next, table, head.headers * head.buckets);
    let bytes = count_bytes(health);
    Tally {
        changes: all.changes + bytes,
        ..all
    }
}

// ---- listing and mending

// A word of the table becomes 0, with its entry (place, old, new); nothing is written where it is 0.
fn clear_word(table: &mut [u32], place: u32, old: u32, report: &mut [u32], at: usize) -> usize
    requires { (place < length table.old) × (old ≡ get_or table.old place 0) ×
        (at + length (change_of place old 0) ≤ length report.old) }
    ensures { (result, (table.new, report.new))
        ≡ cleared_of table.old place old report.old at }
{
    if old == 0 {
        return at;
    }
    report[at] = place;
    report[at + 1] = old;
    report[at + 2] = 0;
    table[place as usize] = 0;
    at + 3
}

// One cell: its entries to the report, its number to the list if it is held; what changes is stored.
fn mend_cell(
    next: u32,
    table: &mut [u32],
    cell: u32,
    report: &mut [u32],
    list: &mut [u32],
    ends: Ends,
) -> Ends
    requires { (3 * cell + 2 < length table.old) × (cell < 4096) ×
        (ends.at + length (changes_in next table.old cell) ≤ length report.old) ×
        (ends.left + length (held_in next table.old cell) ≤ length list.old) }
    ensures { (result, (table.new, (report.new, list.new)))
        ≡ mended_in next table.old cell report.old ends.at list.old ends.left }
{
    let bit = arena::bit_at(table, cell);
    let owner = arena::owner_at(table, cell);
    let waiters = arena::waiters_at(table, cell);
    if is_held(next, bit, owner) {
        list[ends.left] = cell;
        let end = clear_word(table, 3 * cell + 2, waiters, report, ends.at);
        return Ends {
            at: end,
            left: ends.left + 1,
        };
    }
    let a = clear_word(table, 3 * cell, bit, report, ends.at);
    let b = clear_word(table, 3 * cell + 1, owner, report, a);
    let c = clear_word(table, 3 * cell + 2, waiters, report, b);
    Ends { at: c, ..ends }
}

// All cells, from the front of report and list on.
fn mend_cells(
    next: u32,
    table: &mut [u32],
    cells: u32,
    report: &mut [u32],
    list: &mut [u32],
) -> Ends
    requires { (length table.old ≡ 3 * cells) × (cells ≤ 4096) ×
        (length (cell_entries next table.old) ≤ length report.old) ×
        (length (held_from next cells 0 table.old) ≤ length list.old) }
    ensures { (result, (table.new, (report.new, list.new)))
        ≡ mended_cells next cells table.old report.old list.old }
{
    let mut ends = Ends { at: 0, left: 0 };
    for cell in 0..cells {
        ends = mend_cell(next, table, cell, report, list, ends);
    }
    ends
}

// A health byte other than 0 and 1 becomes 1, with its entry.
// (c) `as u32` stays: with `u32::from` the answers name another number, and `omega` did not follow.
fn mend_byte(
    health: &mut [u8],
    i: usize,
    byte: u8,
    place: u32,
    report: &mut [u32],
    at: usize,
) -> usize
    requires { (i < length health.old) × (byte ≡ get_or health.old i 0) ×
        (at + length (change_of place byte (mended_byte byte)) ≤ length report.old) }
    ensures { (result, (health.new, report.new))
        ≡ mended_at health.old i byte place report.old at }
{
    if byte <= 1 {
        return at;
    }
    report[at] = place;
    report[at + 1] = byte as u32;
    report[at + 2] = 1;
    health[i] = 1;
    at + 3
}

// All health bytes, whose places count on from the table's.
fn mend_bytes(health: &mut [u8], place: u32, report: &mut [u32], at: usize) -> usize
    requires { (place + length health.old ≤ 20000) ×
        (at + length (byte_entries place health.old) ≤ length report.old) }
    ensures { (result, (health.new, report.new))
        ≡ mended_bytes health.old place report.old at }
{
    let mut end = at;
    for i in 0..health.len() {
        let byte = health[i];
        end = mend_byte(health, i, byte, place + (i as u32), report, end);
    }
    end
}

// ---- the call

// A cell of a table with nothing to mend: its number to the list unless its bit is 0, since it is held then.
fn list_cell(table: &[u32], cell: u32, list: &mut [u32], left: usize) -> usize
    requires { (3 * cell + 2 < length table.now) × (left + length (used_in table.now cell) ≤ length list.old) }
    ensures { (result, list.new) ≡ laid_of list.old left (used_in table.now cell) }
{
    if arena::bit_at(table, cell) == 0 {
        return left;
    }
    list[left] = cell;
    left + 1
}

// All cells of such a table, from the front of the list on.
fn list_cells(table: &[u32], cells: u32, list: &mut [u32])
    requires { (length table.now ≡ 3 * cells) × (length (used_from cells 0 table.now) ≤ length list.old) }
    ensures { list.new ≡ sets list.old 0 (used_from cells 0 table.now) }
{
    let mut left = 0;
    for cell in 0..cells {
        left = list_cell(table, cell, list, left);
    }
}

// All is listed and mended: the table, then the health bytes.
fn mend_all(
    head: Head,
    table: &mut [u32],
    health: &mut [u8],
    report: &mut [u32],
    unconfirmed: &mut [u32],
)
    requires { Shaped head (length table.old) × (length health.old ≡ head.headers) ×
        (length (changes_of head table.old health.old) ≤ length report.old) ×
        (length (left_held head.next (cells_of head) table.old) ≤ length unconfirmed.old) }
    ensures { (table.new, (health.new, (report.new, unconfirmed.new)))
        ≡ mend_of head table.old health.old report.old unconfirmed.old }
{
    let cells = head.headers * head.buckets;
    let ends = mend_cells(head.next, table, cells, report, unconfirmed);
    mend_bytes(health, 3 * cells, report, ends.at);
}

// The same, given both counts: where nothing changes, only the cells left held are listed, if there are any.
fn mend(
    head: Head,
    changes: usize,
    left: usize,
    table: &mut [u32],
    health: &mut [u8],
    report: &mut [u32],
    unconfirmed: &mut [u32],
)
    requires { Shaped head (length table.old) × (length health.old ≡ head.headers) ×
        (length (changes_of head table.old health.old) ≤ length report.old) ×
        (length (left_held head.next (cells_of head) table.old) ≤ length unconfirmed.old) ×
        (changes ≡ entries_of head table.old health.old) ×
        (left ≡ length (left_held head.next (cells_of head) table.old)) }
    ensures { (table.new, (health.new, (report.new, unconfirmed.new)))
        ≡ mend_of head table.old health.old report.old unconfirmed.old }
{
    if 0 < changes {
        mend_all(head, table, health, report, unconfirmed);
        return;
    }
    if 0 < left {
        list_cells(table, head.headers * head.buckets, unconfirmed);
    }
}

// An arena whose shape is good: ReportFull is known before the first change.
#[tactic(auto, unfolding(model::specs::Salvage::go_over_of, model::specs::Salvage::is_report_full))]
fn go_over(
    head: Head,
    table: &mut [u32],
    health: &mut [u8],
    report: &mut [u32],
    unconfirmed: &mut [u32],
) -> SalvageReply
    requires { Shaped head (length table.old) × (length health.old ≡ head.headers) }
    ensures { (result, (table.new, (health.new, (report.new, unconfirmed.new))))
        ≡ go_over_of head table.old health.old report.old unconfirmed.old }
{
    let Tally { changes, left } = count_all(head, table, health);
    if report.len() / 3 < changes || unconfirmed.len() < left {
        return conclude(head, Err(SalvageRefusal::ReportFull));
    }
    mend(head, changes, left, table, health, report, unconfirmed);
    conclude(head, Ok((changes, left)))
}

// The result, with the head as it was given.
fn conclude(head: Head, answer: Result<(usize, usize), SalvageRefusal>) -> SalvageReply
    ensures { result ≡ concluded head answer }
{
    SalvageReply { head, answer }
}

// Given the head that is held on paper, goes over the arena: damaged cells become free, all waiters become 0, health
// bytes other than 0 and 1 become 1, sound cells keep bit and owner. The report has place, old and new of each word or
// byte changed, rising, the list the cells left held; words behind the entries of both stay as they were. A head or a
// length that keeps no rule of the arena is BadShape; where the report or the list has no room for all its entries it
// is ReportFull. Either changes no lent word.
#[tactic(auto, unfolding(model::specs::Salvage::salvage_of, model::specs::Checks::prepare_rules))]
pub fn salvage(
    head: Head,
    table: &mut [u32],
    health: &mut [u8],
    report: &mut [u32],
    unconfirmed: &mut [u32],
) -> SalvageReply
    ensures { (result, (table.new, (health.new, (report.new, unconfirmed.new))))
        ≡ salvage_of head table.old health.old report.old unconfirmed.old }
{
    match arena::arena_fault(head, table, health) {
        Err(_) => conclude(head, Err(SalvageRefusal::BadShape)),
        Ok(()) => go_over(head, table, health, report, unconfirmed),
    }
}
