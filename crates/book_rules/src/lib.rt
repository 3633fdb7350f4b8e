// The setpoint book (document 02, L2 as amended by L10): the answers of its calls. What they mean is in specs/: L2 and
// L10 themselves, as definitions, with computed cases, and laws about them for the calls and the theory alike.
#![tactic(auto)]

use setpoint::Setpoint;

// The refusals of the book's calls. BadShape is document 01's number 1, NotHeld its 12 and StaleBoot document
// 02's 16 (L8); the others have no number.
#[derive(Clone, Copy, Debug, PartialEq, Eq)]
pub enum BookRefusal {
    BadShape,
    BadSlot,
    StaleBoot,
    NotHeld,
    NotFinite,
    DamagedBook,
    VersionsSpent,
    BookFull,
    NeverWritten,
}

// What a call that is not refused tells: `Written` the new version and the bytes moved, `Setting` the setpoint and its
// version.
#[derive(Clone, Copy)]
pub enum BookDone {
    Done,
    Written(u32, u32),
    Setting(Setpoint, u32),
}

// A call's answer, and what the checks of a call come to.
pub type BookAnswer = Result<BookDone, BookRefusal>;

pub type BookCheck = Result<(), BookRefusal>;
