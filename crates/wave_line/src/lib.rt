// The stages of the waveform's reader (document 02, L11): what one line leads to. The only lines that lead on are those
// that the writer would put there. The functions are parts: each may have a `requires`, which its callers prove.
#![tactic(auto)]

ghost use Rattle.std.specs.Prelude.{◌≡◌, ◌+◌, ◌<◌, ◌≤◌, true, false, length, drop, nat_lt, slice_index, if◌then◌else◌};
ghost use Rattle.text.specs.Text.{is_digit};
ghost use Rattle.wave_rules.specs.Lines.{same as Lines·same};
ghost use Rattle.wave_rules.specs.Dump.{no_bits, bit_line, var_line, upscope};
ghost use Rattle.wave_rules.specs.Reader.{after_variable, after_value, next_of};
ghost use Rattle.wave_rules.specs.declared.Stage.TheVariants.{Values, Waiting};
ghost use Rattle.wave_rules.specs.Stages.{Reach};
ghost use Rattle.wave_line.specs.Stages.{Early};
ghost use Rattle.wave_line.specs.Fronts.{TimeAt, time_front, Walked, Stamped, change_front};

use std::num::wrapping_sub_usize;
use wave_rules::Stage;
use wave_write::turned;

// ---- one line

// Whether two lines have the same bytes.
fn same(x: &[u8], y: &[u8]) -> bool
    ensures { result ≡ Lines·same x.now y.now }
{
    x == y
}

// Whether a line is the one that the writer would put: for a variable, a time, a bit.
fn is_var(line: &[u8], cell: u8) -> bool
    requires { cell < 94 }
    ensures { result ≡ Lines·same line.now (var_line cell) }
{
    let mut want = [0u8; 32];
    let k = wave_write::put_var(&mut want, 0, cell) - 1;
    same(line, &want[..k])
}

#[tactic(auto, unfolding(wave_rules::specs::Dump::bit_line))]
fn is_bit(line: &[u8], bit: u8, cell: u8) -> bool
    requires { (bit ≤ 1) × (cell < 94) }
    ensures { result ≡ Lines·same line.now (bit_line bit cell) }
{
    same(line, &[b'0' + bit, b'!' + cell])
}

// ---- what a line leads to

// Another variable; the end of them.
fn more(n: usize, line: &[u8]) -> bool
    ensures { result ≡ (if nat_lt n 94 then Lines·same line.now (var_line n) else false) }
{
    n < 94 && is_var(line, n as u8)
}

#[tactic(auto, unfolding(wave_rules::specs::Dump::upscope))]
fn no_more(n: usize, line: &[u8]) -> bool
    ensures { result ≡ (if nat_lt 0 n then Lines·same line.now upscope else false) }
{
    0 < n && same(line, b"$upscope $end")
}

#[tactic(auto, unfolding(wave_rules::specs::Reader::after_variable))]
fn after_variable(n: usize, line: &[u8]) -> Option<Stage>
    requires { n ≤ 94 }
    ensures { result ≡ after_variable n line.now }
{
    if more(n, line) {
        Some(Stage::Variables(n + 1))
    } else if no_more(n, line) {
        Some(Stage::Ending(n))
    } else {
        None
    }
}

// The next cell's first value, or the end of them.
fn value_after(n: usize, c: usize) -> Stage
    requires { (n ≤ 94) × (c < n) }
    ensures { result ≡ (if nat_lt (c + 1) n then Values n (c + 1) else Waiting n 0) }
{
    if c + 1 < n {
        Stage::Values(n, c + 1)
    } else {
        Stage::Waiting(n, 0)
    }
}

#[tactic(auto, unfolding(wave_rules::specs::Reader::after_value))]
fn after_value(n: usize, c: usize, line: &[u8]) -> Option<Stage>
    requires { (n ≤ 94) × (c < n) }
    ensures { result ≡ after_value n c line.now }
{
    is_bit(line, 0, c as u8).then_some(value_after(n, c))
}

// What a line before the changes leads to, if it is taken. A part: the reader calls it.
pub fn next(stage: Stage, line: &[u8]) -> Option<Stage>
    requires { Reach stage × Early stage }
    ensures { result ≡ next_of stage no_bits line.now }
{
    match stage {
        Stage::Opening => same(line, b"$timescale 1 ns $end").then_some(Stage::Scope),
        Stage::Scope => same(line, b"$scope module t $end").then_some(Stage::Variables(0)),
        Stage::Variables(n) => after_variable(n, line),
        Stage::Ending(n) => same(line, b"$enddefinitions $end").then_some(Stage::Start(n)),
        Stage::Start(n) => same(line, b"#0").then_some(Stage::Values(n, 0)),
        Stage::Values(n, c) => after_value(n, c, line),
        _ => None,
    }
}

// ---- the two lines of a change

// A time line that was read: its time, and where the next line begins.
#[derive(Clone, Copy)]
pub struct Time {
    pub value: usize,
    pub behind: usize,
}

// What the walk over a time line comes to at a byte that is no digit: the line feed, or no time line.
fn time_end(text: &[u8], at: usize, i: usize, t: usize) -> Option<Time>
    requires { Walked text.now at t i × (i < length text.now) × (i ≤ at + 6) ×
        (slice_index text.now at ≡ 35) × (is_digit (slice_index text.now i) ≡ false) }
    ensures { TimeAt text.now at result }
{
    if text[i] != b'\n' || text[at + 1] == b'0' {
        return None;
    }
    Some(Time {
        value: t,
        behind: i + 1,
    })
}

// The walk up to `stop`, where the text ends or the longest time line does. A byte less 48, which wraps below 0, is
// above 9 where it is no digit.
fn walk(text: &[u8], at: usize, stop: usize) -> Option<Time>
    requires { (at < stop) × (stop ≤ length text.now) × (stop ≤ at + 7) ×
        (stop < length text.now → at + 7 ≤ stop) × (slice_index text.now at ≡ 35) }
    ensures { TimeAt text.now at result }
{
    let mut t: usize = 0;
    for i in at + 1..stop {
        let digit = wrapping_sub_usize(usize::from(text[i]), 48);
        if 9 < digit {
            return time_end(text, at, i, t);
        }
        t = 10 * t + digit;
    }
    None
}

// The time line from `at` on, in one walk. Where seven bytes stand there, the walk has a fixed length, so that it is
// compiled without a loop. A part: the reader calls it.
pub fn time_at(text: &[u8], at: usize) -> Option<Time>
    requires { at < length text.now }
    ensures { TimeAt text.now at result }
{
    if text[at] != b'#' {
        return None;
    }
    if text.len() - at < 7 {
        return walk(text, at, text.len());
    }
    walk(text, at, at + 7)
}

// The time line from `at` on, which is known to be one: its digits up to the line feed, one of the next six bytes. A
// part: the reader calls it. Kept beside `walk`: no byte is tested to be a digit again, and no result to be a time.
// (d) Beside `walk`: no byte is tested to be a digit again, and no result to be a time.
pub fn time_in(text: &[u8], at: usize) -> Time
    requires { (at < length text.now) × (0 < time_front (drop at text.now)) }
    ensures { Stamped text.now at result }
{
    let mut t: usize = 0;
    for i in at + 1..at + 7 {
        let b = usize::from(text[i]);
        if b == 10 {
            return Time {
                value: t,
                behind: i + 1,
            };
        }
        t = 10 * t + b - 48;
    }
    unreachable!()
}

// Whether the line from `at` on is a change: its three bytes stand at their places. A part: the reader calls it.
pub fn is_change_at(text: &[u8], at: usize, n: usize, bits: &[u8; 94]) -> bool
    requires { (n ≤ 94) × (at ≤ length text.now) }
    ensures { result ≡ change_front n bits.now (drop at text.now) }
{
    if text.len() - at < 3 || text[at + 2] != b'\n' {
        return false;
    }
    let cell = wrapping_sub_usize(usize::from(text[at + 1]), 33);
    cell < n && text[at] == b'0' + turned(bits[cell])
}
