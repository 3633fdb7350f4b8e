// The waveform of the cells (document 02, L11): a value change dump. Here are the refusals of its writer and reader,
// and the stages that the reader goes through. What they mean is in specs/: L11 itself, as definitions, and its example
// as a computed case.
#![tactic(auto)]

// Why no dump is written.
#[derive(Clone, Copy, Debug, PartialEq, Eq)]
pub enum WriteRefusal {
    BadScript,
    TooWide,
    NoRoom,
}

// Why a text is not read; BadLine carries the first wrong line, from 1.
#[derive(Clone, Copy, Debug, PartialEq, Eq)]
pub enum ReadRefusal {
    BadLine(usize),
    NoRoom,
}

// What the reader waits for: the first line; the second; a variable, or the end of them if there is one; the end of the
// definitions; `#0`; the first value of a cell; a time line, or the end; the change at a time. The
// numbers: of cells (so far, for Variables); the cell; the time of the last change; the time of this one.
#[derive(Clone, Copy)]
pub enum Stage {
    Opening,
    Scope,
    Variables(usize),
    Ending(usize),
    Start(usize),
    Values(usize, usize),
    Waiting(usize, usize),
    Changing(usize, usize, usize),
}
