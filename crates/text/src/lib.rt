// What lines are made of: bytes up to a stop, and decimal numbers. Every function takes any bytes. None is a call of
// document 01: the waveform and the report call them.
#![tactic(auto)]

ghost use Rattle.std.specs.Prelude.{◌≡◌, ◌+◌, ◌≤◌, length, get_or, drop, take_while, not, ◌==◌};
ghost use Rattle.io.specs.Counts.{IsPrefixLen};
ghost use Rattle.text.specs.Text.{before, ended_number_of, read_number_of};

// A number that was read: its value, and how many digits it has.
#[derive(Clone, Copy, Debug, PartialEq, Eq)]
pub struct Number {
    pub value: u32,
    pub digits: usize,
}

// Where the first `stop` from `at` on stands, or the end. A line ends at a line feed, a word at a space.
pub fn end_of(bytes: &[u8], at: usize, stop: u8) -> usize
    requires { at ≤ length bytes.now }
    ensures value { result ≡ at + before stop (drop at bytes.now) }
    ensures lower_bound { (at ≤ result) × IsPrefixLen result bytes.now }
{
    at + count_before(&bytes[at..], stop)
}

fn count_before(bytes: &[u8], stop: u8) -> usize
    ensures { result ≡ length (take_while (λ b. not (b == stop)) bytes.now) }
{
    bytes.iter().take_while(|b| **b != stop).count()
}

// ---- numbers

// What so many digits at the front of these bytes come to.
fn ended(bytes: &[u8], digits: usize, value: u32) -> Option<Number>
    requires { digits ≤ length bytes.now }
    ensures { result ≡ ended_number_of (get_or bytes.now 0 0) digits value }
{
    if digits == 0 {
        return None;
    }
    if bytes[0] == b'0' && 1 < digits {
        return None;
    }
    Some(Number { value, digits })
}

// The number that stands at `at`: the digits there, up to the first byte that is none.
// (d) Not `parse`, which takes a sign and leading zeros.
pub fn read_number(line: &[u8], at: usize) -> Option<Number>
    ensures { result ≡ read_number_of (drop at line.now) }
{
    let rest = line.get(at..)?;
    let mut value: u32 = 0;
    for (digits, b) in rest.iter().enumerate() {
        if !b.is_ascii_digit() {
            return ended(rest, digits, value);
        }
        value = value.checked_mul(10)?.checked_add(u32::from(*b - b'0'))?;
    }
    ended(rest, rest.len(), value)
}
