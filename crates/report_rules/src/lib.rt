// Document 02, L12: the types of the acceptance report. What is read, summed and printed is defined in specs/, with
// computed cases.
#![tactic(auto)]

// One result: the attempts it took, and the number of its refusal, 0 for granted. A number, since the lines of L12 have
// it so, and it is the place of its count.
// (a) `refusal` is a number: the lines of L12 have it so, and it is the place of its count.
#[derive(Clone, Copy, Debug, PartialEq, Eq)]
pub struct Trial {
    pub attempts: u32,
    pub refusal: u32,
}

// A line of the input: its trial, and where the next line begins.
#[derive(Clone, Copy, Debug, PartialEq, Eq)]
pub struct Line {
    pub trial: Trial,
    pub next: usize,
}

// The lent room is too small for a report.
#[derive(Clone, Copy, Debug, PartialEq, Eq)]
pub struct NoRoom;
