// The types that document 01's answers are made of, and the head's own operations. What a call gives is in crate
// `model`: document 01 itself, as definitions over these types.
#![tactic(auto)]

ghost use Rattle.std.specs.Prelude.{◌≡◌};
ghost use Rattle.types.specs.Head.{serial_remains, shape_fits, health_fits, issue_of, spent_to, is_stale};
ghost use Rattle.types.specs.Numbers.{reason_number, reason_serial, number_of, carried_of};

// The head: header slots H, buckets per header B, the next serial, and the boot number that its preparation was given
// (document 02, L8). It is handed over and given back by value.
#[derive(Clone, Copy, Debug, PartialEq, Eq)]
pub struct Head {
    pub headers: u32,
    pub buckets: u32,
    pub next: u32,
    pub boot: u32,
}

// A lease, as callers hold it: a cell, the serial that owns it, and the boot number of the head that gave it.
#[derive(Clone, Copy, Debug, PartialEq, Eq)]
pub struct Lease {
    pub cell: u32,
    pub serial: u32,
    pub boot: u32,
}

// What is left of a lease where its boot number is known to be the head's: the parts of a call go by these pairs.
#[derive(Clone, Copy, Debug, PartialEq, Eq)]
pub struct Hold {
    pub cell: u32,
    pub serial: u32,
}

// What a cell's bit and owner say.
#[derive(Clone, Copy, Debug, PartialEq, Eq)]
pub enum State {
    Free,
    Held(u32),
    Damaged,
}

// What `Head::issue` hands back: the changed head, and the serial, if one remains.
#[derive(Clone, Copy, Debug, PartialEq, Eq)]
pub struct Issue {
    pub head: Head,
    pub serial: Option<u32>,
}

// Why it is Busy: the cell is held, by this serial; somebody waited before the compare-and-set; somebody waited after
// it, and this serial was spent.
#[derive(Clone, Copy, Debug, PartialEq, Eq)]
pub enum Reason {
    Held(u32),
    Before,
    After(u32),
}

// The sixteen refusals, with what each carries (11 carries 4,096, which is the same for all, and the reason of the last
// attempt).
#[derive(Clone, Copy, Debug, PartialEq, Eq)]
pub enum Refusal {
    BadShape,
    BadScript,
    BadHeld(usize),
    TooMany,
    BadBinding(usize),
    BadHeader(u32),
    Poisoned(u32),
    InvalidBucket(u32),
    Damaged(u32),
    SerialsSpent(u32),
    SerializationFailure(Reason),
    NotHeld(usize),
    Protected,
    Repeated(usize),
    BadCrew(usize),
    StaleBoot(usize),
}

// A call's answer. `AllGranted` and `RefusedAt` (with the key's position) are multi-lock's alone.
// (d) Of seven answers two are refusals, one with a position: a `Result` of five and two is taken apart everywhere.
#[derive(Clone, Copy, Debug, PartialEq, Eq)]
pub enum Answer {
    Done,
    Cell(u32),
    Granted(Lease),
    AllGranted,
    Busy(Reason),
    Refused(Refusal),
    RefusedAt(Refusal, usize),
}

// The four counts of a result.
#[derive(Clone, Copy, Debug, PartialEq, Eq)]
pub struct Counts {
    pub attempts: usize,
    pub boundaries: usize,
    pub yields: usize,
    pub dropped: usize,
}

// The result of a call that takes no script.
#[derive(Clone, Copy, Debug, PartialEq, Eq)]
pub struct Reply {
    pub head: Head,
    pub counts: Counts,
    pub answer: Answer,
}

// The result of a call that takes a script: the place it left comes with it.
#[derive(Clone, Copy, Debug, PartialEq, Eq)]
pub struct ScriptReply {
    pub head: Head,
    pub place: usize,
    pub counts: Counts,
    pub answer: Answer,
}

// The result of the crew's run: for each member, cells taken and cells released; moving and idle turns.
// (a) Sixteen numbers each, as document 01 has the reply; memory is fixed.
#[derive(Clone, Copy, Debug, PartialEq, Eq)]
pub struct CrewReply {
    pub head: Head,
    pub moving: usize,
    pub idle: usize,
    pub taken: [usize; 16],
    pub released: [usize; 16],
    pub answer: Answer,
}

// Below: what goes from part to part inside a call.

// What foreign steps change besides table and health: the next serial, the script's place, the steps dropped so far.
#[derive(Clone, Copy, Debug, PartialEq, Eq)]
pub struct Flow {
    pub next: u32,
    pub place: usize,
    pub dropped: usize,
}

// One foreign step: the next serial after it, and 1 where it was dropped.
// (a) A count and no bool: the definitions of steps in `model` have it as one, and a boundary adds it up.
#[derive(Clone, Copy, Debug, PartialEq, Eq)]
pub struct Stepped {
    pub next: u32,
    pub dropped: usize,
}

// What one compare-and-set answers; Busy comes with the serial that holds the cell.
#[derive(Clone, Copy, Debug, PartialEq, Eq)]
pub enum Take {
    Granted(u32),
    Busy(u32),
    Damaged,
    Spent,
}

// One compare-and-set: the next serial after it, and its answer.
#[derive(Clone, Copy, Debug, PartialEq, Eq)]
pub struct Took {
    pub next: u32,
    pub answer: Take,
}

// What an attempt comes to.
// (d) Busy is neither a grant nor a refusal.
#[derive(Clone, Copy, Debug, PartialEq, Eq)]
pub enum Outcome {
    Granted(Hold),
    Busy(Reason),
    Refused(Refusal),
}

// One try_lock: the flow after it, its boundaries, what it comes to.
#[derive(Clone, Copy, Debug, PartialEq, Eq)]
pub struct Locked {
    pub flow: Flow,
    pub boundaries: usize,
    pub answer: Outcome,
}

// What attempts change besides table and health.
#[derive(Clone, Copy, Debug, PartialEq, Eq)]
pub struct Run {
    pub flow: Flow,
    pub attempts: usize,
    pub boundaries: usize,
    pub yields: usize,
}

// Attempts made so far, and what the last one came to.
#[derive(Clone, Copy, Debug, PartialEq, Eq)]
pub struct Tried {
    pub run: Run,
    pub outcome: Outcome,
}

// What multi-lock's parts come to.
#[derive(Clone, Copy, Debug, PartialEq, Eq)]
pub struct Ended {
    pub run: Run,
    pub answer: Answer,
}

// The last serial. It is never issued: where the next serial has reached it, none remains.
pub const LAST_SERIAL: u32 = 4294967295;

// Whether a serial remains: the one test of it, for a caller's take and for a foreign one.
pub fn serial_remains(next: u32) -> bool
    ensures { result ≡ serial_remains next }
{
    next < LAST_SERIAL
}

impl Head {
    // Whether the head and the number of the table's words keep the arena's rules.
    #[tactic(auto, unfolding(crate::specs::Head::shape_fits, crate::specs::Head::head_fits))]
    pub fn shape_fits(self, words: usize) -> bool
        ensures { result ≡ shape_fits self words }
    {
        let h = self.headers;
        let b = self.buckets;
        (1..=64).contains(&h)
            && (1..=1024).contains(&b)
            && h * b <= 4096
            && 1 <= self.next
            && words == (3 * (h * b)) as usize
    }

    // Whether there is one health byte for each header.
    #[tactic(auto, unfolding(crate::specs::Head::health_fits))]
    pub fn health_fits(self, bytes: usize) -> bool
        ensures { result ≡ health_fits self bytes }
    {
        bytes == self.headers as usize
    }

    // The next serial, if one remains, and the head without it.
    #[tactic(auto, unfolding(crate::specs::Head::issue_of))]
    pub fn issue(self) -> Issue
        ensures { result ≡ issue_of self }
    {
        let n = self.next;
        if serial_remains(n) {
            Issue {
                head: self.spent_to(n + 1),
                serial: Some(n),
            }
        } else {
            Issue {
                head: self,
                serial: None,
            }
        }
    }

    // Whether a lease has another boot number than the head's.
    pub fn is_stale(self, lease: Lease) -> bool
        ensures { result ≡ is_stale self lease }
    {
        lease.boot != self.boot
    }

    // The head after steps that left this next serial.
    pub fn spent_to(self, next: u32) -> Head
        ensures { result ≡ spent_to self next }
    {
        Head { next, ..self }
    }
}

impl Reason {
    // Its number, for callers in C or Rust and for the pages.
    pub fn number(self) -> u32
        ensures { result ≡ reason_number self }
    {
        match self {
            Reason::Held(_) => 1,
            Reason::Before => 2,
            Reason::After(_) => 3,
        }
    }

    // The serial that goes with it, 0 if none does.
    pub fn serial(self) -> u32
        ensures { result ≡ reason_serial self }
    {
        match self {
            Reason::Held(serial) | Reason::After(serial) => serial,
            Reason::Before => 0,
        }
    }
}

impl Refusal {
    // Document 01's number.
    pub fn number(self) -> u32
        ensures { result ≡ number_of self }
    {
        match self {
            Refusal::BadShape => 1,
            Refusal::BadScript => 2,
            Refusal::BadHeld(_) => 3,
            Refusal::TooMany => 4,
            Refusal::BadBinding(_) => 5,
            Refusal::BadHeader(_) => 6,
            Refusal::Poisoned(_) => 7,
            Refusal::InvalidBucket(_) => 8,
            Refusal::Damaged(_) => 9,
            Refusal::SerialsSpent(_) => 10,
            Refusal::SerializationFailure(_) => 11,
            Refusal::NotHeld(_) => 12,
            Refusal::Protected => 13,
            Refusal::Repeated(_) => 14,
            Refusal::BadCrew(_) => 15,
            Refusal::StaleBoot(_) => 16,
        }
    }

    // What it carries.
    pub fn carried(self) -> usize
        ensures { result ≡ carried_of self }
    {
        match self {
            Refusal::BadShape | Refusal::BadScript | Refusal::TooMany | Refusal::Protected => 0,
            Refusal::BadHeld(n)
            | Refusal::BadBinding(n)
            | Refusal::NotHeld(n)
            | Refusal::Repeated(n)
            | Refusal::BadCrew(n)
            | Refusal::StaleBoot(n) => n,
            Refusal::BadHeader(n)
            | Refusal::Poisoned(n)
            | Refusal::InvalidBucket(n)
            | Refusal::Damaged(n)
            | Refusal::SerialsSpent(n) => n as usize,
            Refusal::SerializationFailure(_) => 4096,
        }
    }
}

// Document 02, L6. Why a salvage changed nothing.
#[derive(Clone, Copy, Debug, PartialEq, Eq)]
pub enum SalvageRefusal {
    BadShape,
    ReportFull,
}

// The result of a salvage, with the head as it was given: entries in the report and cells left held, or the refusal.
#[derive(Clone, Copy, Debug, PartialEq, Eq)]
pub struct SalvageReply {
    pub head: Head,
    pub answer: Result<(usize, usize), SalvageRefusal>,
}
