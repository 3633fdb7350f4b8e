// The writer of the waveform (document 02, L11): first how long the dump is, so that nothing is written where it does
// not fit, and then its bytes. Each function but `write` is a part: it may have a `requires`, which its callers prove.
#![tactic(auto)]

ghost use Rattle.std.specs.Prelude.{◌≡◌, ◌+◌, ◌<◌, ◌≤◌, true, [], ◌∷◌, length};
ghost use Rattle.print.specs.Print.{put_of};
ghost use Rattle.text.specs.Decimal.{digit_count};
ghost use Rattle.wave_rules.specs.Lines.{joined};
ghost use Rattle.wave_rules.specs.Dump.{no_bits, changes_of, time_line, bit_line, var_line, vars_of, first_of, body_of};
ghost use Rattle.wave_rules.specs.Dump.{turns as Dump·turns, turned as Dump·turned};
ghost use Rattle.wave_rules.specs.Calls.{bad_history, too_wide, fitted_of, write_of};
ghost use Rattle.wave_write.specs.Writer.{wanted_of, flipped_of, step_of, weigh_of, head_of};

use print::{put, put_number};
use wave_rules::WriteRefusal;

// ---- lines

// A time line of N bytes, so of N - 2 digits.
// (d) Beside `put_number` of `print`, which is for any number: here the number of digits is known, and no loop is left.
fn put_digits<const N: usize>(out: &mut [u8], at: usize, t: usize) -> usize
    requires { (t < 100000) × (N ≡ digit_count t + 2) × (at + N ≤ length out.old) }
    ensures { (result, out.new) ≡ put_of out.old at (joined (time_line t ∷ [])) }
{
    let mut text = [b'#'; N];
    text[N - 1] = b'\n';
    let mut rest = t as u32;
    for i in (1..N - 1).rev() {
        text[i] = b'0' + (rest % 10) as u8;
        rest /= 10;
    }
    put(out, at, &text)
}

// The line of a time.
fn put_time(out: &mut [u8], at: usize, t: usize) -> usize
    requires { (t < 100000) × (at + digit_count t + 2 ≤ length out.old) }
    ensures { (result, out.new) ≡ put_of out.old at (joined (time_line t ∷ [])) }
{
    match digit_count(t) {
        1 => put_digits::<3>(out, at, t),
        2 => put_digits::<4>(out, at, t),
        3 => put_digits::<5>(out, at, t),
        4 => put_digits::<6>(out, at, t),
        _ => put_digits::<7>(out, at, t),
    }
}

fn put_bit(out: &mut [u8], at: usize, bit: u8, cell: u8) -> usize
    requires { (bit ≤ 1) × (cell < 94) × (at + 3 ≤ length out.old) }
    ensures { (result, out.new) ≡ put_of out.old at (joined (bit_line bit cell ∷ [])) }
{
    let text = [b'0' + bit, b'!' + cell, b'\n'];
    put(out, at, &text)
}

// A part: the reader calls it too.
pub fn put_var(out: &mut [u8], at: usize, cell: u8) -> usize
    requires { (cell < 94) × (at + digit_count cell + 21 ≤ length out.old) }
    ensures { (result, out.new) ≡ put_of out.old at (joined (var_line cell ∷ [])) }
{
    let mut front = *b"$var wire 1 ! c";
    front[12] = b'!' + cell;
    let a = put(out, at, &front);
    let b = put_number(out, a, cell as usize);
    put(out, b, b" $end\n")
}

// ---- runs of lines

fn put_vars(out: &mut [u8], at: usize, n: u8) -> usize
    requires { (n ≤ 94) × (at + length (joined (vars_of 0 n [])) ≤ length out.old) }
    ensures { (result, out.new) ≡ put_of out.old at (joined (vars_of 0 n [])) }
{
    let mut used = at;
    for cell in 0..n {
        used = put_var(out, used, cell);
    }
    used
}

// Kept beside `put_vars`: a closure for the line would bring the room that it asks for into every contract here.
// (d) Beside `put_vars`: a closure for the line would bring the room that it asks for into every contract here.
fn put_first(out: &mut [u8], at: usize, n: u8) -> usize
    requires { (n ≤ 94) × (at + length (joined (first_of 0 n [])) ≤ length out.old) }
    ensures { (result, out.new) ≡ put_of out.old at (joined (first_of 0 n [])) }
{
    let mut used = at;
    for cell in 0..n {
        used = put_bit(out, used, 0, cell);
    }
    used
}

// ---- a step

// (a) Kinds and bits stay numbers: L11's definitions and the dump's digits have them so, and an enum is turned back.
// (d) `weigh` and `body_size` stay beside `step` and `put_body`: one walk would ask for the room of any closure.
// (d) The number of cells and their bits stay two parameters: every definition of `specs/` takes them apart.

#[tactic(auto, unfolding(wave_rules::specs::Dump::turns))]
fn turns(kind: u32, bit: u8) -> bool
    ensures { result ≡ Dump·turns kind bit }
{
    if bit == 0 { kind == 1 } else { kind == 2 }
}

// A part: the reader calls it too.
pub fn turned(bit: u8) -> u8
    ensures { result ≡ Dump·turned bit }
{
    if bit == 0 { 1 } else { 0 }
}

// Whether a step changes a bit; the bits after it.
fn flip(n: usize, bits: &mut [u8; 94], kind: u32, cell: usize) -> bool
    requires { n ≤ 94 }
    ensures { (result, bits.new) ≡ flipped_of n bits.old kind cell }
{
    if cell < n && turns(kind, bits[cell]) {
        bits[cell] = turned(bits[cell]);
        return true;
    }
    false
}

fn put_change(out: &mut [u8], at: usize, t: usize, bit: u8, cell: u8) -> usize
    requires { (bit ≤ 1) × (cell < 94) × (t < 100000) × (at + digit_count t + 5 ≤ length out.old) }
    ensures { (result, out.new)
        ≡ put_of out.old at (joined (time_line t ∷ bit_line bit cell ∷ [])) }
{
    let a = put_time(out, at, t);
    put_bit(out, a, bit, cell)
}

// The bit that a take or a release leaves.
#[tactic(auto, unfolding(crate::specs::Writer::wanted_of))]
fn wanted(kind: u32) -> u8
    ensures { result ≡ wanted_of kind }
{
    if kind == 1 { 1 } else { 0 }
}

// One step: the bits after it, and its lines.
// Kept beside `weigh`, as `put_body` beside `body_size`: one walk for both would ask for room of any closure it calls.
fn step(
    n: usize,
    t: usize,
    bits: &mut [u8; 94],
    kind: u32,
    cell: usize,
    out: &mut [u8],
    at: usize,
) -> usize
    requires { (n ≤ 94) × (t < 100000) ×
        (changes_of n bits.old kind cell ≡ true → at + digit_count t + 5 ≤ length out.old) }
    ensures { (result, (bits.new, out.new))
        ≡ step_of n t bits.old kind cell out.old at }
{
    if flip(n, bits, kind, cell) {
        return put_change(out, at, t, wanted(kind), cell as u8);
    }
    at
}

fn put_body(n: usize, script: &[u32], out: &mut [u8], at: usize) -> usize
    requires { (n ≤ 94) × (length script.now ≤ 98304) ×
        (at + length (joined (body_of n 1 no_bits script.now)) ≤ length out.old) }
    ensures { (result, out.new)
        ≡ put_of out.old at (joined (body_of n 1 no_bits script.now)) }
{
    let mut bits = [0u8; 94];
    let mut used = at;
    for s in 0..script.len() / 3 {
        let kind = script[3 * s];
        let cell = script[3 * s + 1] as usize;
        used = step(n, s + 1, &mut bits, kind, cell, out, used);
    }
    used
}

fn put_head(out: &mut [u8], n: u8) -> usize
    requires { (n ≤ 94) × (length (head_of n) ≤ length out.old) }
    ensures { (result, out.new) ≡ put_of out.old 0 (head_of n) }
{
    let a = put(out, 0, b"$timescale 1 ns $end\n$scope module t $end\n");
    let b = put_vars(out, a, n);
    let c = put(out, b, b"$upscope $end\n$enddefinitions $end\n#0\n");
    put_first(out, c, n)
}

// ---- how long

// The most digits first: most steps of a long history have them.
// (b) A match over ranges is compiled to try the fewest digits first, 5 % of the instructions of a long dump.
fn digit_count(t: usize) -> usize
    requires { t < 100000 }
    ensures { result ≡ digit_count t }
{
    // Kept: a match over ranges is compiled to try the fewest digits first, 5 % of the instructions of a long dump.
    if 10000 <= t {
        return 5;
    }
    if 1000 <= t {
        return 4;
    }
    if 100 <= t {
        return 3;
    }
    if 10 <= t { 2 } else { 1 }
}

fn head_size(n: usize) -> usize
    requires { n ≤ 94 }
    ensures { result ≡ length (head_of n) }
{
    let mut size = 80;
    for cell in 0..n {
        size += 24 + digit_count(cell);
    }
    size
}

// The bytes of one step, and the bits after it.
fn weigh(n: usize, t: usize, bits: &mut [u8; 94], kind: u32, cell: usize) -> usize
    requires { (n ≤ 94) × (t < 100000) }
    ensures { (result, bits.new) ≡ weigh_of n t bits.old kind cell }
{
    if flip(n, bits, kind, cell) {
        return digit_count(t) + 5;
    }
    0
}

fn body_size(n: usize, script: &[u32]) -> usize
    requires { (n ≤ 94) × (length script.now ≤ 98304) }
    ensures value { result ≡ length (joined (body_of n 1 no_bits script.now)) }
    ensures upper_bound { result ≤ 1000000 }
{
    let mut bits = [0u8; 94];
    let mut size = 0;
    for s in 0..script.len() / 3 {
        let kind = script[3 * s];
        let cell = script[3 * s + 1] as usize;
        size += weigh(n, s + 1, &mut bits, kind, cell);
    }
    size
}

// ---- the whole

// Whether a script is no history: "at most 32,768 steps (else 2, first)".
#[tactic(auto, unfolding(wave_rules::specs::Calls::bad_history))]
fn bad_history(script: &[u32]) -> bool
    ensures { result ≡ bad_history script.now }
{
    script.len() % 3 != 0 || 32768 < script.len() / 3
}

// "No cells or more than 94".
#[tactic(auto, unfolding(wave_rules::specs::Calls::too_wide))]
fn too_wide(n: u32) -> bool
    ensures { result ≡ too_wide n }
{
    n == 0 || 94 < n
}

// The dump, if there is room for all of it.
fn fitted(n: u32, script: &[u32], out: &mut [u8]) -> Result<usize, WriteRefusal>
    requires { (n ≤ 94) × (length script.now ≤ 98304) }
    ensures { (result, out.new) ≡ fitted_of n script.now out.old }
{
    let cells = n as usize;
    let size = head_size(cells) + body_size(cells, script);
    if out.len() < size {
        return Err(WriteRefusal::NoRoom);
    }
    let at = put_head(out, n as u8);
    Ok(put_body(cells, script, out, at))
}

// The call: the dump of the first n cells over a history, into a lent buffer.
pub fn write(n: u32, script: &[u32], out: &mut [u8]) -> Result<usize, WriteRefusal>
    ensures { (result, out.new) ≡ write_of n script.now out.old }
{
    if bad_history(script) {
        return Err(WriteRefusal::BadScript);
    }
    if too_wide(n) {
        return Err(WriteRefusal::TooWide);
    }
    fitted(n, script, out)
}
