// The calls of document 01, and document 02's keys in any order, salvage, crew at work, setpoint book and waveform, for
// a kernel in C or Rust; include/skid.h declares them. Only numbers and lent runs cross: the head goes in as four
// numbers, a lease as three, and the last parameter is the lent reply, whose words crate `skid_rules` lays out. Each is
// thin: it makes the head, makes the call, and writes the reply's words.
#![tactic(auto)]

ghost use Rattle.std.specs.Prelude.{◌≡◌};
ghost use Rattle.std.specs.Float.{binary32};
ghost use Rattle.std.specs.Float.Ieee.{of_bits};
ghost use Rattle.model.specs.Arena.{head_of, lease_of};
ghost use Rattle.model.specs.Calls.{prepare_of, try_acquire_of, drop_lease_of, read_permission_of};
ghost use Rattle.model.specs.Calls.{competing_acquire_of};
ghost use Rattle.model.specs.Calls.{release_then_handoff_of, foreign_release_of, acquire_preserving_of};
ghost use Rattle.model.specs.Calls.{drop_preserving_of};
ghost use Rattle.model.specs.Calls.{environment_of, try_lock_of, transactional_of, acquire_bucket_of, release_all_of};
ghost use Rattle.model.specs.Calls.{acquire_locks_of};
ghost use Rattle.model.specs.Crew.{crew_of, crew_at_work_of};
ghost use Rattle.model.specs.Salvage.{salvage_of};
ghost use Rattle.model.specs.Sorted.{acquire_sorted_of};
ghost use Rattle.setpoint.specs.declared.Setpoint.TheVariants.{Pressure, Speed, Valve};
ghost use Rattle.book_rules.specs.Calls.{prepare_book_of, write_setpoint_of, read_setpoint_of, read_version_of};
ghost use Rattle.wave_rules.specs.Calls.{write_of, read_into_of};
ghost use Rattle.skid_rules.specs.Words.{reply_words, script_reply_words, crew_words, salvage_words, book_words};
ghost use Rattle.skid_rules.specs.Words.{dumped_words};
ghost use Rattle.skid_rules.specs.Words.{undumped_words, told};

use setpoint::Setpoint;
use types::{Head, Lease};

// The head that a call is given.
fn head_of(headers: u32, buckets: u32, next: u32, boot: u32) -> Head
    ensures { result ≡ head_of headers buckets next boot }
{
    Head {
        headers,
        buckets,
        next,
        boot,
    }
}

// The lease that a call is given.
#[inline(always)]
fn lease_of(cell: u32, serial: u32, boot: u32) -> Lease
    ensures { result ≡ lease_of cell serial boot }
{
    Lease { cell, serial, boot }
}

// The number of this interface, which is a part of the name: a program asks for the name that it was compiled with, and
// with another interface it does not link. The number rises with every change of a call, of an answer or of a layout.
#[unsafe(no_mangle)]
pub extern "C" fn skid_interface_1() -> u32
    ensures { result ≡ 1 }
{
    1
}

// ---- preparing

// Refused with 1 it changes no lent word and replies a head of four zeros.
#[unsafe(no_mangle)]
pub extern "C" fn skid_prepare(
    headers: u32,
    buckets: u32,
    serial: u32,
    boot: u32,
    table: &mut [u32],
    health: &mut [u8],
    reply: &mut [u64; 15],
)
    ensures { (reply.new, (table.new, health.new))
        ≡ told reply_words (prepare_of headers buckets serial boot table.old health.old).seen }
{
    let r = arena::prepare(headers, buckets, serial, boot, table, health);
    *reply = skid_words::reply_words(r);
}

// After a warm restart (document 02, L6), by the head that is held on paper. BadShape and ReportFull change no lent
// word; words behind the entries of the report and of the list stay as they were.
#[unsafe(no_mangle)]
pub extern "C" fn skid_salvage(
    headers: u32,
    buckets: u32,
    next: u32,
    boot: u32,
    table: &mut [u32],
    health: &mut [u8],
    report: &mut [u32],
    unconfirmed: &mut [u32],
    reply: &mut [u64; 7],
)
    ensures { (
      reply.new,
      (
        table.new,
        (
          health.new,
          (report.new, unconfirmed.new),
        ),
      ),
    )
        ≡ told salvage_words (salvage_of (head_of headers buckets next boot) table.old health.old
        report.old unconfirmed.old) }
{
    let head = head_of(headers, buckets, next, boot);
    let r = salvage::salvage(head, table, health, report, unconfirmed);
    *reply = skid_words::salvage_words(r);
}

// ---- calls without a script

// Only a grant changes the table; a held cell is Busy with its owner's serial, no refusal.
#[unsafe(no_mangle)]
pub extern "C" fn skid_try_acquire(
    headers: u32,
    buckets: u32,
    next: u32,
    boot: u32,
    table: &mut [u32],
    cell: u32,
    reply: &mut [u64; 15],
)
    ensures { (reply.new, table.new)
        ≡ told reply_words (try_acquire_of (head_of headers buckets next boot) table.old cell).seen }
{
    let head = head_of(headers, buckets, next, boot);
    let r = lease::try_acquire(head, table, cell);
    *reply = skid_words::reply_words(r);
}

// A lease with another boot number than the head's is refused with 16, one that is not live with 12, and nothing
// changes; so in every call by lease.
#[unsafe(no_mangle)]
pub extern "C" fn skid_drop_lease(
    headers: u32,
    buckets: u32,
    next: u32,
    boot: u32,
    table: &mut [u32],
    cell: u32,
    serial: u32,
    lease_boot: u32,
    reply: &mut [u64; 15],
)
    ensures { (reply.new, table.new)
        ≡ told reply_words (drop_lease_of (head_of headers buckets next boot) table.old
        (lease_of cell serial lease_boot)).seen }
{
    let head = head_of(headers, buckets, next, boot);
    let lease = lease_of(cell, serial, lease_boot);
    let r = lease::drop_lease(head, table, lease);
    *reply = skid_words::reply_words(r);
}

// Changes nothing; a lease with another boot number is refused with 16, one that is not live with 12.
#[unsafe(no_mangle)]
pub extern "C" fn skid_read_permission(
    headers: u32,
    buckets: u32,
    next: u32,
    boot: u32,
    table: &[u32],
    cell: u32,
    serial: u32,
    lease_boot: u32,
    reply: &mut [u64; 15],
)
    ensures { reply.new
        ≡ reply_words (read_permission_of (head_of headers buckets next boot) table.now
        (lease_of cell serial lease_boot)).seen }
{
    let head = head_of(headers, buckets, next, boot);
    let lease = lease_of(cell, serial, lease_boot);
    let r = lease::read_permission(head, table, lease);
    *reply = skid_words::reply_words(r);
}

// Busy with its own serial for every live lease, and nothing changes.
#[unsafe(no_mangle)]
pub extern "C" fn skid_competing_acquire_is_excluded(
    headers: u32,
    buckets: u32,
    next: u32,
    boot: u32,
    table: &mut [u32],
    cell: u32,
    serial: u32,
    lease_boot: u32,
    reply: &mut [u64; 15],
)
    ensures { (reply.new, table.new)
        ≡ told reply_words (competing_acquire_of (head_of headers buckets next boot) table.old
        (lease_of cell serial lease_boot)).seen }
{
    let head = head_of(headers, buckets, next, boot);
    let lease = lease_of(cell, serial, lease_boot);
    let r = lease::competing_acquire_is_excluded(head, table, lease);
    *reply = skid_words::reply_words(r);
}

// With no serial left the release stands, and the reply is 10.
#[unsafe(no_mangle)]
pub extern "C" fn skid_release_then_handoff(
    headers: u32,
    buckets: u32,
    next: u32,
    boot: u32,
    table: &mut [u32],
    cell: u32,
    serial: u32,
    lease_boot: u32,
    reply: &mut [u64; 15],
)
    ensures { (reply.new, table.new)
        ≡ told reply_words (release_then_handoff_of (head_of headers buckets next boot) table.old
        (lease_of cell serial lease_boot)).seen }
{
    let head = head_of(headers, buckets, next, boot);
    let lease = lease_of(cell, serial, lease_boot);
    let r = lease::release_then_handoff(head, table, lease);
    *reply = skid_words::reply_words(r);
}

// A lease of the held list is refused with 13; with no serial left the cell is free.
#[unsafe(no_mangle)]
pub extern "C" fn skid_foreign_release_between_attempts(
    headers: u32,
    buckets: u32,
    next: u32,
    boot: u32,
    table: &mut [u32],
    held: &[u32],
    cell: u32,
    serial: u32,
    lease_boot: u32,
    reply: &mut [u64; 15],
)
    ensures { (reply.new, table.new)
        ≡ told reply_words (foreign_release_of (head_of headers buckets next boot) table.old
        held.now (lease_of cell serial lease_boot)).seen }
{
    let head = head_of(headers, buckets, next, boot);
    let lease = lease_of(cell, serial, lease_boot);
    let r = lease::foreign_release_between_attempts(head, table, held, lease);
    *reply = skid_words::reply_words(r);
}

// A held lease with another boot number is refused with 16 and its position, one that is not live with 3 and its
// position; so in every call with a held list.
#[unsafe(no_mangle)]
pub extern "C" fn skid_acquire_preserving_borrows(
    headers: u32,
    buckets: u32,
    next: u32,
    boot: u32,
    table: &mut [u32],
    held: &[u32],
    cell: u32,
    reply: &mut [u64; 15],
)
    ensures { (reply.new, table.new)
        ≡ told reply_words (acquire_preserving_of (head_of headers buckets next boot) table.old
        held.now cell).seen }
{
    let head = head_of(headers, buckets, next, boot);
    let r = lease::acquire_preserving_borrows(head, table, held, cell);
    *reply = skid_words::reply_words(r);
}

// A lease of the held list is refused with 13, and nothing changes.
#[unsafe(no_mangle)]
pub extern "C" fn skid_drop_preserving_borrows(
    headers: u32,
    buckets: u32,
    next: u32,
    boot: u32,
    table: &mut [u32],
    held: &[u32],
    cell: u32,
    serial: u32,
    lease_boot: u32,
    reply: &mut [u64; 15],
)
    ensures { (reply.new, table.new)
        ≡ told reply_words (drop_preserving_of (head_of headers buckets next boot) table.old
        held.now (lease_of cell serial lease_boot)).seen }
{
    let head = head_of(headers, buckets, next, boot);
    let lease = lease_of(cell, serial, lease_boot);
    let r = lease::drop_preserving_borrows(head, table, held, lease);
    *reply = skid_words::reply_words(r);
}

// ---- calls with a script

// The script frees no lease of the held list; what cannot be done is dropped and counted.
#[unsafe(no_mangle)]
pub extern "C" fn skid_environment(
    headers: u32,
    buckets: u32,
    next: u32,
    boot: u32,
    table: &mut [u32],
    health: &mut [u8],
    script: &[u32],
    place: usize,
    held: &[u32],
    reply: &mut [u64; 15],
)
    ensures { (reply.new, (table.new, health.new))
        ≡ told script_reply_words (environment_of (head_of headers buckets next boot) table.old
        health.old script.now place held.now).seen }
{
    let head = head_of(headers, buckets, next, boot);
    let r = foreign::environment(head, table, health, script, place, held);
    *reply = skid_words::script_reply_words(r);
}

// The same call under its other name. It goes through the first, so that the inner call has one caller and is compiled
// into it.
#[unsafe(no_mangle)]
pub extern "C" fn skid_environment_for_borrows(
    headers: u32,
    buckets: u32,
    next: u32,
    boot: u32,
    table: &mut [u32],
    health: &mut [u8],
    script: &[u32],
    place: usize,
    held: &[u32],
    reply: &mut [u64; 15],
)
    ensures { (reply.new, (table.new, health.new))
        ≡ told script_reply_words (environment_of (head_of headers buckets next boot) table.old
        health.old script.now place held.now).seen }
{
    skid_environment(
        headers, buckets, next, boot, table, health, script, place, held, reply,
    )
}

// After the third boundary the health of the cell's header is read, then the waiters. A lease given up then, with 7 or
// because somebody waits, leaves its cell free and its serial spent; Busy then gives that serial.
#[unsafe(no_mangle)]
pub extern "C" fn skid_try_lock(
    headers: u32,
    buckets: u32,
    next: u32,
    boot: u32,
    table: &mut [u32],
    health: &mut [u8],
    script: &[u32],
    place: usize,
    held: &[u32],
    cell: u32,
    reply: &mut [u64; 15],
)
    ensures { (reply.new, (table.new, health.new))
        ≡ told script_reply_words (try_lock_of (head_of headers buckets next boot) table.old health.old
        script.now place held.now cell).seen }
{
    let head = head_of(headers, buckets, next, boot);
    let r = lock::try_lock(head, table, health, script, place, held, cell);
    *reply = skid_words::script_reply_words(r);
}

// The same call under its other name, likewise.
#[unsafe(no_mangle)]
pub extern "C" fn skid_other_mutex_preserves_leases(
    headers: u32,
    buckets: u32,
    next: u32,
    boot: u32,
    table: &mut [u32],
    health: &mut [u8],
    script: &[u32],
    place: usize,
    held: &[u32],
    cell: u32,
    reply: &mut [u64; 15],
)
    ensures { (reply.new, (table.new, health.new))
        ≡ told script_reply_words (try_lock_of (head_of headers buckets next boot) table.old health.old
        script.now place held.now cell).seen }
{
    skid_try_lock(
        headers, buckets, next, boot, table, health, script, place, held, cell, reply,
    )
}

// 6, 7 and 8 before the try_lock count the attempt and change nothing. 7 after its third boundary gives the lease up:
// its cell is free, its serial spent.
#[unsafe(no_mangle)]
pub extern "C" fn skid_transactional_try_lock_bucket(
    headers: u32,
    buckets: u32,
    next: u32,
    boot: u32,
    table: &mut [u32],
    health: &mut [u8],
    registry: &[u32],
    script: &[u32],
    place: usize,
    held: &[u32],
    binding: u32,
    bucket: u32,
    reply: &mut [u64; 15],
)
    ensures { (reply.new, (table.new, health.new))
        ≡ told script_reply_words (transactional_of (head_of headers buckets next boot) table.old
        health.old registry.now script.now place held.now binding
        bucket).seen }
{
    let head = head_of(headers, buckets, next, boot);
    let r = bucket::transactional_try_lock_bucket(
        head, table, health, registry, script, place, held, binding, bucket,
    );
    *reply = skid_words::script_reply_words(r);
}

// 7 ends it in each attempt's two readings of the health. 4,096 Busy attempts are refused with 11 and the last one's
// reason, and nothing is held.
#[unsafe(no_mangle)]
pub extern "C" fn skid_acquire_index_bucket(
    headers: u32,
    buckets: u32,
    next: u32,
    boot: u32,
    table: &mut [u32],
    health: &mut [u8],
    registry: &[u32],
    script: &[u32],
    place: usize,
    held: &[u32],
    binding: u32,
    bucket: u32,
    reply: &mut [u64; 15],
)
    ensures { (reply.new, (table.new, health.new))
        ≡ told script_reply_words (acquire_bucket_of (head_of headers buckets next boot) table.old
        health.old registry.now script.now place held.now binding
        bucket).seen }
{
    let head = head_of(headers, buckets, next, boot);
    let r = bucket::acquire_index_bucket(
        head, table, health, registry, script, place, held, binding, bucket,
    );
    *reply = skid_words::script_reply_words(r);
}

// Any lease with another boot number, or that is not live, or stands twice, refuses the whole list, nothing released.
#[unsafe(no_mangle)]
pub extern "C" fn skid_release_all(
    headers: u32,
    buckets: u32,
    next: u32,
    boot: u32,
    table: &mut [u32],
    health: &mut [u8],
    script: &[u32],
    place: usize,
    leases: &[u32],
    reply: &mut [u64; 15],
)
    ensures { (reply.new, (table.new, health.new))
        ≡ told script_reply_words (release_all_of (head_of headers buckets next boot) table.old
        health.old script.now place leases.now).seen }
{
    let head = head_of(headers, buckets, next, boot);
    let r = release::release_all(head, table, health, script, place, leases);
    *reply = skid_words::script_reply_words(r);
}

// All keys or none, three words a grant; a refusal leaves the grant buffer as it was.
#[unsafe(no_mangle)]
pub extern "C" fn skid_acquire_index_locks(
    headers: u32,
    buckets: u32,
    next: u32,
    boot: u32,
    table: &mut [u32],
    health: &mut [u8],
    registry: &[u32],
    script: &[u32],
    place: usize,
    held: &[u32],
    keys: &[u32],
    grants: &mut [u32],
    reply: &mut [u64; 15],
)
    ensures { (reply.new, (table.new, (health.new, grants.new)))
        ≡ told script_reply_words (acquire_locks_of (head_of headers buckets next boot) table.old
        health.old registry.now script.now place held.now
        keys.now grants.old).seen }
{
    let head = head_of(headers, buckets, next, boot);
    let r = multilock::acquire_index_locks(
        head, table, health, registry, script, place, held, keys, grants,
    );
    *reply = skid_words::script_reply_words(r);
}

// Keys in any order (document 02, L4), all or none. Each distinct cell is locked once, keys of one cell share its
// lease; a bad header or bucket is refused before any attempt, and a refusal leaves the grant buffer as it was.
#[unsafe(no_mangle)]
pub extern "C" fn skid_acquire_sorted_locks(
    headers: u32,
    buckets: u32,
    next: u32,
    boot: u32,
    table: &mut [u32],
    health: &mut [u8],
    registry: &[u32],
    script: &[u32],
    place: usize,
    held: &[u32],
    keys: &[u32],
    grants: &mut [u32],
    reply: &mut [u64; 15],
)
    ensures { (reply.new, (table.new, (health.new, grants.new)))
        ≡ told script_reply_words (acquire_sorted_of (head_of headers buckets next boot) table.old
        health.old registry.now script.now place held.now
        keys.now grants.old).seen }
{
    let head = head_of(headers, buckets, next, boot);
    let r = sorted::acquire_sorted_locks(
        head, table, health, registry, script, place, held, keys, grants,
    );
    *reply = skid_words::script_reply_words(r);
}

// ---- the crew

// A refused crew has moved nobody; turns that run out leave its cells held.
#[unsafe(no_mangle)]
pub extern "C" fn skid_crew(
    headers: u32,
    buckets: u32,
    next: u32,
    boot: u32,
    table: &mut [u32],
    health: &[u8],
    counts: &[u32],
    cells: &[u32],
    turns: &[u32],
    reply: &mut [u64; 49],
)
    ensures { (reply.new, table.new)
        ≡ told crew_words (crew_of (head_of headers buckets next boot) table.old health.now
        counts.now cells.now turns.now).seen }
{
    let head = head_of(headers, buckets, next, boot);
    let r = crew::crew(head, table, health, counts, cells, turns);
    *reply = skid_words::crew_words(r);
}

// At work (document 02, L13). Counters that are not one a cell are 1; a refusal leaves them. Turns that run out leave
// what was added.
#[unsafe(no_mangle)]
pub extern "C" fn skid_crew_at_work(
    headers: u32,
    buckets: u32,
    next: u32,
    boot: u32,
    table: &mut [u32],
    health: &[u8],
    counts: &[u32],
    cells: &[u32],
    turns: &[u32],
    counters: &mut [u16],
    reply: &mut [u64; 49],
)
    ensures { (reply.new, (table.new, counters.new))
        ≡ told crew_words (crew_at_work_of (head_of headers buckets next boot) table.old
        health.now counts.now cells.now turns.now
        counters.old).seen }
{
    let head = head_of(headers, buckets, next, boot);
    let r = crew_at_work::crew_at_work(head, table, health, counts, cells, turns, counters);
    *reply = skid_words::crew_words(r);
}

// ---- the setpoint book (document 02, L2 and L10)

// Refused with 1 or BadSlot it changes no byte.
#[unsafe(no_mangle)]
pub extern "C" fn skid_prepare_book(
    headers: u32,
    buckets: u32,
    next: u32,
    boot: u32,
    book: &mut [u8],
    reply: &mut [u64; 4],
)
    ensures { (reply.new, book.new)
        ≡ told book_words (prepare_book_of (head_of headers buckets next boot) book.old) }
{
    let head = head_of(headers, buckets, next, boot);
    let r = book::prepare_book(head, book);
    *reply = skid_words::book_words(r);
}

// The pressure with this pattern. The language makes no float of a NaN's pattern; it has one NaN, which is what
// infinity less infinity is.
fn pressure(bits: u32) -> Setpoint
    ensures { result ≡ Pressure (of_bits binary32 bits) }
{
    if 0x7f80_0000 < bits % 0x8000_0000 {
        let top = f32::from_bits(0x7f80_0000);
        return Setpoint::Pressure(top - top);
    }
    let x = f32::from_bits(bits);
    Setpoint::Pressure(x)
}

// A lease with another boot number is 16, before 12; a pressure that is not finite is NotFinite. The table is only
// read, and a refusal changes no byte. Each sort of setpoint has a call of its own, so that no wrong kind can cross. A
// pressure crosses as the 32 bits of its f32: where a program is compiled without SSE registers, a float would be
// passed on the stack, and every argument behind it read wrongly.
#[unsafe(no_mangle)]
pub extern "C" fn skid_write_pressure(
    headers: u32,
    buckets: u32,
    next: u32,
    boot: u32,
    table: &[u32],
    book: &mut [u8],
    slot: u32,
    cell: u32,
    serial: u32,
    lease_boot: u32,
    bits: u32,
    reply: &mut [u64; 4],
)
    ensures { (reply.new, book.new)
        ≡ told book_words (write_setpoint_of (head_of headers buckets next boot) table.now
        book.old slot (lease_of cell serial lease_boot) (Pressure (of_bits binary32 bits))) }
{
    let head = head_of(headers, buckets, next, boot);
    let lease = lease_of(cell, serial, lease_boot);
    let setpoint = pressure(bits);
    let r = book::write_setpoint(head, table, book, slot, lease, setpoint);
    *reply = skid_words::book_words(r);
}

// So too; no speed is NotFinite.
#[unsafe(no_mangle)]
pub extern "C" fn skid_write_speed(
    headers: u32,
    buckets: u32,
    next: u32,
    boot: u32,
    table: &[u32],
    book: &mut [u8],
    slot: u32,
    cell: u32,
    serial: u32,
    lease_boot: u32,
    speed: u32,
    reply: &mut [u64; 4],
)
    ensures { (reply.new, book.new)
        ≡ told book_words (write_setpoint_of (head_of headers buckets next boot) table.now
        book.old slot (lease_of cell serial lease_boot) (Speed speed)) }
{
    let head = head_of(headers, buckets, next, boot);
    let lease = lease_of(cell, serial, lease_boot);
    let r = book::write_setpoint(head, table, book, slot, lease, Setpoint::Speed(speed));
    *reply = skid_words::book_words(r);
}

// So too; true is open.
#[unsafe(no_mangle)]
pub extern "C" fn skid_write_valve(
    headers: u32,
    buckets: u32,
    next: u32,
    boot: u32,
    table: &[u32],
    book: &mut [u8],
    slot: u32,
    cell: u32,
    serial: u32,
    lease_boot: u32,
    opened: bool,
    reply: &mut [u64; 4],
)
    ensures { (reply.new, book.new)
        ≡ told book_words (write_setpoint_of (head_of headers buckets next boot) table.now
        book.old slot (lease_of cell serial lease_boot) (Valve opened)) }
{
    let head = head_of(headers, buckets, next, boot);
    let lease = lease_of(cell, serial, lease_boot);
    let r = book::write_setpoint(head, table, book, slot, lease, Setpoint::Valve(opened));
    *reply = skid_words::book_words(r);
}

// Changes nothing and takes no table: a read needs no lease.
#[unsafe(no_mangle)]
pub extern "C" fn skid_read_setpoint(
    headers: u32,
    buckets: u32,
    next: u32,
    boot: u32,
    book: &[u8],
    slot: u32,
    reply: &mut [u64; 4],
)
    ensures { reply.new
        ≡ book_words (read_setpoint_of (head_of headers buckets next boot) book.now slot) }
{
    let head = head_of(headers, buckets, next, boot);
    let r = book::read_setpoint(head, book, slot);
    *reply = skid_words::book_words(r);
}

// Changes nothing and takes no table, as `skid_read_setpoint`. NeverWritten if the slot does not keep the version.
#[unsafe(no_mangle)]
pub extern "C" fn skid_read_version(
    headers: u32,
    buckets: u32,
    next: u32,
    boot: u32,
    book: &[u8],
    slot: u32,
    version: u32,
    reply: &mut [u64; 4],
)
    ensures { reply.new
        ≡ book_words (read_version_of (head_of headers buckets next boot) book.now slot version) }
{
    let head = head_of(headers, buckets, next, boot);
    let r = book::read_version(head, book, slot, version);
    *reply = skid_words::book_words(r);
}

// ---- the waveform of the cells (document 02, L11)

// TooWide and NoRoom write nothing.
#[unsafe(no_mangle)]
pub extern "C" fn skid_write_dump(cells: u32, script: &[u32], text: &mut [u8], reply: &mut [u64; 3])
    ensures { (reply.new, text.new)
        ≡ told dumped_words (write_of cells script.now text.old) }
{
    let r = wave_write::write(cells, script, text);
    *reply = skid_words::dumped_words(r);
}

// A text that no writer made is refused with its first wrong line, before NoRoom; a refusal writes nothing.
#[unsafe(no_mangle)]
pub extern "C" fn skid_read_dump(text: &[u8], script: &mut [u32], reply: &mut [u64; 3])
    ensures { (reply.new, script.new)
        ≡ told undumped_words (read_into_of text.now script.old) }
{
    let r = wave_read::read(text, script);
    *reply = skid_words::undumped_words(r);
}
