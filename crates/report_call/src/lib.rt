// The acceptance report of document 02, L12: trials read from bytes, summed, and printed into a lent run.
// `report` is the call; the other functions are its parts. What they promise is defined in crate `report_rules`.
#![tactic(auto)]

ghost use Rattle.std.specs.Prelude.{◌≡◌, ◌+◌, ◌<◌, ◌≤◌, eqb, length, get_or, drop};
ghost use Rattle.model.specs.Names.{name_of};
ghost use Rattle.text.specs.Text.{read_number_of};
ghost use Rattle.print.specs.Print.{put_of};
ghost use Rattle.report_rules.specs.Reading.{Small, fits_of, end_at, refusal_at, line_at};
ghost use Rattle.report_call.specs.Scan.{no_sums, added_of, scan_of, Bounded, seen_in, printed_of};
ghost use Rattle.report_rules.specs.Report.{row_of, rows_of, head_of, bad_text, report_of};

use report_rules::{Line, NoRoom, Trial};
use text::Number;

// The sums so far, and how many trials ended with each number.
#[derive(Clone, Copy, Debug, PartialEq, Eq)]
pub struct Sums {
    pub trials: usize,
    pub attempts: usize,
    pub greatest: usize,
    pub counts: [usize; 17],
}

// ---- reading

// The number at `at`, if one stands there and it is at most this.
fn number_up_to(input: &[u8], at: usize, most: u32) -> Option<Number>
    ensures { result ≡ fits_of (read_number_of (drop at input.now)) most }
{
    let number = text::read_number(input, at)?;
    (number.value <= most).then_some(number)
}

// Whether this byte stands at `at`.
fn stands(input: &[u8], at: usize, byte: u8) -> bool
    requires { 0 < byte }
    ensures { result ≡ eqb (get_or input.now at 0) byte }
{
    input.get(at) == Some(&byte)
}

// The line feed at `at`.
fn end_at(input: &[u8], at: usize, attempts: u32, refusal: u32) -> Option<Line>
    ensures { result ≡ end_at input.now at attempts refusal }
{
    if !stands(input, at, b'\n') {
        return None;
    }
    Some(Line {
        trial: Trial { attempts, refusal },
        next: at + 1,
    })
}

// The space and the refusal from `at` on, and the end of the line.
fn refusal_at(input: &[u8], at: usize, attempts: u32) -> Option<Line>
    ensures { result ≡ refusal_at input.now at attempts }
{
    if !stands(input, at, b' ') {
        return None;
    }
    let number = number_up_to(input, at + 1, 16)?;
    end_at(input, at + 1 + number.digits, attempts, number.value)
}

// The line that begins at `at`.
fn line_at(input: &[u8], at: usize) -> Option<Line>
    ensures { result ≡ line_at input.now at }
{
    let number = number_up_to(input, at, 262_144)?;
    refusal_at(input, at + number.digits, number.value)
}

// ---- summing

impl Sums {
    fn none() -> Sums
        ensures { result ≡ no_sums }
    {
        Sums {
            trials: 0,
            attempts: 0,
            greatest: 0,
            counts: [0; 17],
        }
    }

    // One trial more in the sums, and in the count of its number.
    fn add(&mut self, trial: Trial)
        requires { Bounded self.old × (self.old.trials < 1000) × Small trial }
        ensures { self.new ≡ added_of self.old trial }
    {
        let attempts = trial.attempts as usize;
        self.trials += 1;
        self.attempts += attempts;
        self.greatest = self.greatest.max(attempts);
        self.counts[trial.refusal as usize] += 1;
    }
}

// Reads line after line, and sums the trials, or gives the number of the first bad line.
fn scan(input: &[u8]) -> Result<Sums, usize>
    ensures { result ≡ scan_of input.now }
{
    let mut sums = Sums::none();
    let mut at = 0;
    for number in 1..=1000_usize {
        if input.len() <= at {
            return Ok(sums);
        }
        let Some(line) = line_at(input, at) else {
            return Err(number);
        };
        sums.add(line.trial);
        at = line.next;
    }
    if at < input.len() {
        return Err(1001);
    }
    Ok(sums)
}

// ---- printing

// Puts the name of a refusal, without its padding.
fn put_name(out: &mut [u8], at: usize, number: usize) -> usize
    requires { at + 20 ≤ length out.old }
    ensures { (result, out.new) ≡ put_of out.old at (name_of number) }
{
    let padded = report_names::padded(number);
    let end = text::end_of(&padded, 0, 32);
    print::put(out, at, &padded[..end])
}

// Puts the line of a refusal, if it was seen.
fn put_row(out: &mut [u8], at: usize, number: usize, count: usize) -> usize
    requires { at + 120 ≤ length out.old }
    ensures { (result, out.new) ≡ put_of out.old at (row_of number count) }
{
    if count == 0 {
        return at;
    }
    let a = print::put_form(out, at, b"# ", &[number]);
    let b = put_name(out, a, number);
    print::put_form(out, b, b" #\n", &[count])
}

// Puts the lines of the refusals, in number order.
fn put_rows(out: &mut [u8], at: usize, counts: &[usize; 17]) -> usize
    requires { at + 1920 ≤ length out.old }
    ensures { (result, out.new) ≡ put_of out.old at (rows_of (seen_in counts.now) 1 16) }
{
    let mut used = at;
    for number in 1..17 {
        used = put_row(out, used, number, counts[number]);
    }
    used
}

// Puts the four lines that every report has.
fn put_head(out: &mut [u8], sums: &Sums) -> usize
    requires { 2000 ≤ length out.old }
    ensures { (result, out.new)
        ≡ put_of out.old 0 (head_of sums.now.trials (get_or sums.now.counts 0 0) sums.now.attempts sums.now.greatest) }
{
    let form = b"trials #\ngrants #\nattempts # of # trials\ngreatest #\n";
    let numbers = [
        sums.trials,
        sums.counts[0],
        sums.attempts,
        sums.trials,
        sums.greatest,
    ];
    print::put_form(out, 0, form, &numbers)
}

fn put_bad(out: &mut [u8], line: usize) -> usize
    requires { 2000 ≤ length out.old }
    ensures { (result, out.new) ≡ put_of out.old 0 (bad_text line) }
{
    print::put_form(out, 0, b"bad line #\n", &[line])
}

// Puts the report of what a pass left: of the sums, or the bad line alone.
fn put_report(out: &mut [u8], scanned: Result<Sums, usize>) -> usize
    requires { 4096 ≤ length out.old }
    ensures { (result, out.new) ≡ put_of out.old 0 (printed_of scanned) }
{
    match scanned {
        Ok(sums) => {
            let used = put_head(out, &sums);
            put_rows(out, used, &sums.counts)
        }
        Err(line) => put_bad(out, line),
    }
}

// ---- the whole

// The acceptance report of the trials in `input`, at the front of `out`. A room of less than 4,096 bytes is refused.
pub fn report(input: &[u8], out: &mut [u8]) -> Result<usize, NoRoom>
    ensures { (result, out.new) ≡ report_of input.now out.old }
{
    if out.len() < 4096 {
        return Err(NoRoom);
    }
    Ok(put_report(out, scan(input)))
}
