// A reply as words, for callers in C or Rust: fifteen of them, the crew's forty-nine, the salvage's seven, the setpoint
// book's four, or the waveform's three.
// (a) Kinds and refusals are numbers here: words of include/skid.h. (d) `as u64` stays: of `usize` there is no `From`,
// and one form serves all words.
// Crate `skid_rules` lays them out (its specs/Words.antt) and proves that they lose nothing (its specs/Tells.antt).
#![tactic(auto)]

ghost use Rattle.std.specs.Prelude.{◌≡◌, ◌+◌, ◌≤◌, true};
ghost use Rattle.std.proofs.lemmas.List.Edits.{sets};
ghost use Rattle.types.specs.declared.Answer.TheVariants.{Granted};
ghost use Rattle.model.specs.Refusals.{refusal_reason};
ghost use Rattle.book_rules.specs.Outcomes.{body_read};
ghost use Rattle.skid_rules.specs.Words.{busy_words, refusal_words, answer_words, result_words};
ghost use Rattle.skid_rules.specs.Words.{reply_words, script_reply_words};
ghost use Rattle.skid_rules.specs.Words.{each_of, crew_words, salvaged_words, salvage_words, book_number, book_words};
ghost use Rattle.skid_rules.specs.Words.{dumped_words, undumped_words};

use book_rules::{BookAnswer, BookDone, BookRefusal};
use types::{
    Answer, Counts, CrewReply, Head, Lease, Refusal, Reply, SalvageRefusal, SalvageReply,
    ScriptReply,
};
use wave_rules::{ReadRefusal, WriteRefusal};

// Words 13 and 14 of a refusal: only 11 gives a reason.
fn reason_words(refusal: Refusal) -> [u64; 2]
    ensures { result ≡ refusal_reason refusal }
{
    match refusal {
        Refusal::SerializationFailure(why) => [u64::from(why.number()), u64::from(why.serial())],
        _ => [0, 0],
    }
}

// Words 9 to 14 of a refusal.
fn refusal_words(kind: u64, refusal: Refusal, position: usize) -> [u64; 6]
    ensures { result ≡ refusal_words kind refusal position }
{
    let why = reason_words(refusal);
    [
        kind,
        refusal.number() as u64,
        refusal.carried() as u64,
        position as u64,
        why[0],
        why[1],
    ]
}

// Words 9 to 14 of Busy.
#[inline(always)]
fn busy_words(reason: u32, serial: u32) -> [u64; 6]
    ensures { result ≡ busy_words reason serial }
{
    [4, 0, 0, 0, reason as u64, serial as u64]
}

// Words 9 to 14 of a grant.
#[inline(always)]
fn granted_words(lease: Lease) -> [u64; 6]
    ensures { result ≡ answer_words (Granted lease) }
{
    [
        2,
        lease.cell as u64,
        lease.serial as u64,
        lease.boot as u64,
        0,
        0,
    ]
}

// Words 9 to 14.
fn answer_words(answer: Answer) -> [u64; 6]
    ensures { result ≡ answer_words answer }
{
    match answer {
        Answer::Done => [0, 0, 0, 0, 0, 0],
        Answer::Cell(cell) => [1, cell as u64, 0, 0, 0, 0],
        Answer::Granted(lease) => granted_words(lease),
        Answer::AllGranted => [3, 0, 0, 0, 0, 0],
        Answer::Busy(why) => busy_words(why.number(), why.serial()),
        Answer::Refused(refusal) => refusal_words(5, refusal, 0),
        Answer::RefusedAt(refusal, key) => refusal_words(6, refusal, key),
    }
}

// The same, with the short answers at hand: a call that is granted or done then calls nothing for its words.
// (b) Beside `answer_words`: a call left for the words put a release above twice plain Rust (docs/DECISIONS.md, P.5).
#[inline(always)]
fn said_words(answer: Answer) -> [u64; 6]
    ensures { result ≡ answer_words answer }
{
    match answer {
        Answer::Done => [0, 0, 0, 0, 0, 0],
        Answer::Cell(cell) => [1, cell as u64, 0, 0, 0, 0],
        Answer::Granted(lease) => granted_words(lease),
        Answer::AllGranted => [3, 0, 0, 0, 0, 0],
        Answer::Busy(_) | Answer::Refused(_) | Answer::RefusedAt(_, _) => answer_words(answer),
    }
}

// All fifteen.
#[inline(always)]
fn words(head: Head, place: usize, counts: Counts, answer: Answer) -> [u64; 15]
    ensures { result ≡ result_words head place counts answer }
{
    let said = said_words(answer);
    [
        head.headers as u64,
        head.buckets as u64,
        head.next as u64,
        head.boot as u64,
        place as u64,
        counts.attempts as u64,
        counts.boundaries as u64,
        counts.yields as u64,
        counts.dropped as u64,
        said[0],
        said[1],
        said[2],
        said[3],
        said[4],
        said[5],
    ]
}

// Of a call without a script: place 0.
#[inline(always)]
pub fn reply_words(r: Reply) -> [u64; 15]
    ensures { result ≡ reply_words r }
{
    words(r.head, 0, r.counts, r.answer)
}

// Of a call with a script.
#[inline(always)]
pub fn script_reply_words(r: ScriptReply) -> [u64; 15]
    ensures { result ≡ script_reply_words r }
{
    words(r.head, r.place, r.counts, r.answer)
}

// Counts of the crew's members, put into its words from a place on.
fn put_counts(words: &mut [u64; 49], at: usize, counts: &[usize; 16])
    requires { at + 16 ≤ 49 }
    ensures { words.new ≡ sets words.old at (each_of 16 0 counts.now) }
{
    for i in 0..16 {
        words[at + i] = counts[i] as u64;
    }
}

// Of the crew.
pub fn crew_words(r: CrewReply) -> [u64; 49]
    ensures { result ≡ crew_words r }
{
    let head = r.head;
    let said = answer_words(r.answer);
    let mut words = [0u64; 49];
    words[0] = head.headers as u64;
    words[1] = head.buckets as u64;
    words[2] = head.next as u64;
    words[3] = head.boot as u64;
    words[9] = said[0];
    words[10] = said[1];
    words[11] = said[2];
    words[12] = said[3];
    words[13] = said[4];
    words[14] = said[5];
    words[15] = r.moving as u64;
    words[16] = r.idle as u64;
    put_counts(&mut words, 17, &r.taken);
    put_counts(&mut words, 33, &r.released);
    words
}

// Words 4 to 6 of a salvage.
fn salvaged_words(answer: Result<(usize, usize), SalvageRefusal>) -> [u64; 3]
    ensures { result ≡ salvaged_words answer }
{
    match answer {
        Ok((changed, held)) => [0, changed as u64, held as u64],
        Err(SalvageRefusal::BadShape) => [5, 1, 0],
        Err(SalvageRefusal::ReportFull) => [5, 106, 0],
    }
}

// Of a salvage.
pub fn salvage_words(r: SalvageReply) -> [u64; 7]
    ensures { result ≡ salvage_words r }
{
    let head = r.head;
    let said = salvaged_words(r.answer);
    [
        head.headers as u64,
        head.buckets as u64,
        head.next as u64,
        head.boot as u64,
        said[0],
        said[1],
        said[2],
    ]
}

// The number of the book's refusal: document 01's where it has one, else from 101 on.
fn book_number(refusal: BookRefusal) -> u64
    ensures { result ≡ book_number refusal }
{
    match refusal {
        BookRefusal::BadShape => 1,
        BookRefusal::BadSlot => 101,
        BookRefusal::StaleBoot => 16,
        BookRefusal::NotHeld => 12,
        BookRefusal::NotFinite => 102,
        BookRefusal::DamagedBook => 103,
        BookRefusal::VersionsSpent => 104,
        BookRefusal::BookFull => 107,
        BookRefusal::NeverWritten => 105,
    }
}

// Of the setpoint book. A setting has a body, as every read's has: only such a setpoint has a word.
#[tactic(auto, unfolding(skid_rules::specs::Words::book_words))]
pub fn book_words(answer: BookAnswer) -> [u64; 4]
    requires { body_read answer ≡ true }
    ensures { result ≡ book_words answer }
{
    match answer {
        Ok(BookDone::Done) => [0, 0, 0, 0],
        Ok(BookDone::Written(version, moved)) => [1, version as u64, moved as u64, 0],
        Ok(BookDone::Setting(s, version)) => [2, version as u64, s.kind() as u64, s.word() as u64],
        Err(refusal) => [3, book_number(refusal), 0, 0],
    }
}

// Of the waveform's writer.
#[tactic(auto, unfolding(skid_rules::specs::Words::dumped_words))]
pub fn dumped_words(answer: Result<usize, WriteRefusal>) -> [u64; 3]
    ensures { result ≡ dumped_words answer }
{
    match answer {
        Ok(size) => [0, size as u64, 0],
        Err(WriteRefusal::BadScript) => [1, 2, 0],
        Err(WriteRefusal::TooWide) => [2, 0, 0],
        Err(WriteRefusal::NoRoom) => [3, 0, 0],
    }
}

// Of its reader.
#[tactic(auto, unfolding(skid_rules::specs::Words::undumped_words))]
pub fn undumped_words(answer: Result<(usize, usize), ReadRefusal>) -> [u64; 3]
    ensures { result ≡ undumped_words answer }
{
    match answer {
        Ok((cells, steps)) => [0, cells as u64, steps as u64],
        Err(ReadRefusal::BadLine(line)) => [4, line as u64, 0],
        Err(ReadRefusal::NoRoom) => [3, 0, 0],
    }
}
