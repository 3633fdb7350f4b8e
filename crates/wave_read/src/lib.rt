// The reader of the waveform (document 02, L11). The lines before the changes lead from stage to stage (crate
// `wave_line`); the changes are pairs of lines, a time and a change, with loops of their own. A first pass finds the
// wrong line, or how many words there are; a second writes them, so that nothing is written where they do not fit. Each
// function but `read` is a part: it may have a `requires`, which its callers prove.
#![tactic(auto)]

ghost use Rattle.std.specs.Prelude.{◌≡◌, ◌+◌, ◌*◌, ◌<◌, ◌≤◌, IfSome, [], ◌∷◌, length, drop, replicate};
ghost use Rattle.std.proofs.lemmas.List.Edits.{sets};
ghost use Rattle.wave_rules.specs.Lines.{split_of};
ghost use Rattle.wave_rules.specs.Dump.{no_bits};
ghost use Rattle.wave_rules.specs.Reader.{verdict_of, idle, kind_for, script_words_of};
ghost use Rattle.wave_rules.specs.Reader.{read as Reader·read};
ghost use Rattle.wave_rules.specs.Calls.{answered, read_into_of};
ghost use Rattle.wave_rules.specs.declared.Stage.TheVariants.{Opening, Waiting};
ghost use Rattle.print.specs.Print.{put_of};
ghost use Rattle.wave_read.specs.Laws.{line_end_of, Headed, OfCells, Right, Begun};

use wave_rules::{ReadRefusal, Stage};

// Where the line from `at` on ends, if a line feed stands behind at most 22 bytes: a line of a dump has no more, so
// what stands behind them is not read.
fn line_end(text: &[u8], at: usize) -> Option<usize>
    requires { at ≤ length text.now }
    ensures value { result ≡ line_end_of text.now at }
    ensures lower_bound { IfSome result (λ end. (at ≤ end) × (end < length text.now)) }
{
    let m = (text.len() - at).min(23);
    let n = text::end_of(&text[at..at + m], 0, b'\n');
    if n < m { Some(at + n) } else { None }
}

// Where the changes begin: the place, the number of cells, and that line's number.
#[derive(Clone, Copy)]
struct Header {
    at: usize,
    cells: usize,
    line: usize,
}

// The lines before the changes: from stage to stage, up to the one that waits for a time; or the first wrong line.
// (d) No `for`: each turn finds where its line ends, and with that where the next begins.
fn read_header(text: &[u8]) -> Result<Header, usize>
    ensures { Headed text.now result }
{
    // No `for`: each turn finds where its line ends, and with that where the next begins; so in `scan` and `fill`.
    let mut stage = Stage::Opening;
    let mut at = 0;
    let mut k = 1;
    while at < text.len() {
        let Some(end) = line_end(text, at) else {
            return Err(k);
        };
        let Some(after) = wave_line::next(stage, &text[at..end]) else {
            return Err(k);
        };
        at = end + 1;
        k += 1;
        if let Stage::Waiting(cells, _) = after {
            return Ok(Header { at, cells, line: k });
        }
        stage = after;
    }
    Err(k)
}

// The first wrong line of the changes, which begin at line `first`, or how many cells and steps.
// (d) No `for`: the place moves by the length of what was read.
fn scan(text: &[u8], from: usize, n: usize, first: usize) -> Result<(usize, usize), usize>
    requires { (n ≤ 94) × (from ≤ length text.now) × (first ≤ from + 1) }
    ensures value { result ≡ verdict_of first (Waiting n 0) no_bits (split_of (drop from text.now)) }
    ensures of_cells { OfCells n result }
{
    let mut bits = [0u8; 94];
    let mut last = 0;
    let mut at = from;
    let mut k = first;
    while at < text.len() {
        let Some(time) = wave_line::time_at(text, at) else {
            return Err(k);
        };
        if time.value <= last || 32768 < time.value {
            return Err(k);
        }
        let i = time.behind;
        if !wave_line::is_change_at(text, i, n, &bits) {
            return Err(k + 1);
        }
        let cell = usize::from(text[i + 1] - b'!');
        bits[cell] = wave_write::turned(bits[cell]);
        last = time.value;
        at = i + 3;
        k += 2;
    }
    Ok((n, last))
}

// ---- the script

// Words of 0.
fn put_zeros(out: &mut [u32], at: usize, count: usize) -> usize
    requires { at + count ≤ length out.old }
    ensures { (result, out.new) ≡ put_of out.old at (replicate count 0) }
{
    out[at..at + count].fill(0);
    at + count
}

// A take or a release: "other words 0".
fn put_step(out: &mut [u32], at: usize, kind: u32, cell: u32) -> usize
    requires { at + 3 ≤ length out.old }
    ensures { (result, out.new) ≡ put_of out.old at (kind ∷ cell ∷ 0 ∷ []) }
{
    out[at] = kind;
    out[at + 1] = cell;
    out[at + 2] = 0;
    at + 3
}

// "a take sets its cell's bit, a release clears it": numbers, as the script's words and L11's definitions have them
// (a) Numbers, as the script's words and L11's definitions have them.
fn kind_for(bit: u8) -> u32
    ensures { result ≡ kind_for bit }
{
    if bit == 0 { 1 } else { 2 }
}

// The words of a change: those of the steps that only count, and its own.
fn put_change(out: &mut [u32], at: usize, gap: usize, kind: u32, cell: u32) -> usize
    requires { at + 3 * gap + 3 ≤ length out.old }
    ensures { (result, out.new) ≡ put_of out.old at (idle gap (kind ∷ cell ∷ 0 ∷ [])) }
{
    let a = put_zeros(out, at, 3 * gap);
    put_step(out, a, kind, cell)
}

// The words of changes that are right: no line is tested again.
// (d) No `for`: the place moves by the length of what was read.
fn fill(text: &[u8], from: usize, n: usize, out: &mut [u32])
    requires { (n ≤ 94) × (from ≤ length text.now) × Right text.now from n 0 no_bits ×
        (length (script_words_of (Waiting n 0) no_bits (split_of (drop from text.now))) ≤ length out.old) }
    ensures { out.new
        ≡ sets out.old 0 (script_words_of (Waiting n 0) no_bits (split_of (drop from text.now))) }
{
    let mut bits = [0u8; 94];
    let mut last = 0;
    let mut at = from;
    let mut used = 0;
    while at < text.len() {
        let time = wave_line::time_in(text, at);
        let t = time.value;
        let i = time.behind;
        let cell = usize::from(text[i + 1] - b'!');
        let bit = bits[cell];
        used = put_change(out, used, t - 1 - last, kind_for(bit), cell as u32);
        bits[cell] = wave_write::turned(bit);
        last = t;
        at = i + 3;
    }
}

// The script of a text that is fine, with its changes from `from` on, if there is room for all of it.
fn give(
    text: &[u8],
    from: usize,
    n: usize,
    last: usize,
    out: &mut [u32],
) -> Result<(usize, usize), ReadRefusal>
    requires { Begun text.now from n last }
    ensures { (result, out.new)
        ≡ answered (Reader·read n (script_words_of Opening no_bits (split_of text.now))) out.old }
{
    if out.len() / 3 < last {
        return Err(ReadRefusal::NoRoom);
    }
    fill(text, from, n, out);
    Ok((n, last))
}

// The call: the number of cells and a script, into a lent buffer; or the first wrong line.
pub fn read(text: &[u8], out: &mut [u32]) -> Result<(usize, usize), ReadRefusal>
    ensures { (result, out.new) ≡ read_into_of text.now out.old }
{
    let head = read_header(text).map_err(ReadRefusal::BadLine)?;
    let (n, last) = scan(text, head.at, head.cells, head.line).map_err(ReadRefusal::BadLine)?;
    give(text, head.at, n, last, out)
}
