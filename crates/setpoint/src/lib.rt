// A setpoint and its five bytes (document 02, L2): a kind byte and four bytes, low byte first. specs/Codec.antt has the
// rules; specs/RoundTrip.antt proves that they lose nothing, both ways.
// Functions with a `requires` are parts: `word` and `body` are for a setpoint that has a body, which their callers have
// asked.
#![tactic(auto)]

ghost use Rattle.std.specs.Prelude.{◌≡◌, true};
ghost use Rattle.setpoint.specs.Codec.{is_finite, has_body, kind_of, word_of, body_of, encode_of};
ghost use Rattle.setpoint.specs.Codec.{setting_of, join_of, decode_of};

// A pressure in bar, a speed, a valve (true is open).
#[derive(Clone, Copy)]
pub enum Setpoint {
    Pressure(f32),
    Speed(u32),
    Valve(bool),
}

// A pressure that is not finite has no body: it encodes as nothing.
#[derive(Clone, Copy, Debug, PartialEq, Eq)]
pub struct NotFinite;

// Whether a pressure is finite, by tests for equality alone: the library's test takes the pressure from itself, and of
// an infinity that is an invalid operation, as an order is of a NaN: a kernel that has this exception unmasked stops.
fn is_finite(x: f32) -> bool
    ensures { result ≡ is_finite x }
{
    let top = f32::from_bits(0x7f80_0000);
    if x.is_nan() {
        return false;
    }
    x != top && x != -top
}

impl Setpoint {
    // Whether the setpoint has a body: only a pressure may have none.
    pub fn has_body(self) -> bool
        ensures { result ≡ has_body self }
    {
        match self {
            Setpoint::Pressure(x) => is_finite(x),
            Setpoint::Speed(_) | Setpoint::Valve(_) => true,
        }
    }

    // The kind byte.
    // (a) Numbers and no enum: document 02 puts 1, 2 and 3 into a book, and `decoded_is_encoded` is of any byte.
    pub fn kind(self) -> u8
        ensures { result ≡ kind_of self }
    {
        match self {
            Setpoint::Pressure(_) => 1,
            Setpoint::Speed(_) => 2,
            Setpoint::Valve(_) => 3,
        }
    }

    // What the four bytes say.
    pub fn word(self) -> u32
        requires { has_body self ≡ true }
        ensures { result ≡ word_of self }
    {
        match self {
            Setpoint::Pressure(x) => x.to_bits(),
            Setpoint::Speed(n) => n,
            Setpoint::Valve(b) => u32::from(b),
        }
    }

    // The five bytes.
    pub fn body(self) -> [u8; 5]
        requires { has_body self ≡ true }
        ensures { result ≡ body_of self }
    {
        let [a, b, c, d] = self.word().to_le_bytes();
        [self.kind(), a, b, c, d]
    }
}

// The body of a setpoint, into five lent bytes. A pressure that is not finite leaves them as they were.
pub fn encode(s: Setpoint, out: &mut [u8; 5]) -> Result<(), NotFinite>
    ensures { (result, out.new) ≡ encode_of s out.old }
{
    if !s.has_body() {
        return Err(NotFinite);
    }
    *out = s.body();
    Ok(())
}

// What a kind and a word mean; `None` where they fit no rule.
pub fn setting(kind: u8, word: u32) -> Option<Setpoint>
    ensures { result ≡ setting_of kind word }
{
    match (kind, word) {
        (1, _) if word % 0x8000_0000 < 0x7f80_0000 => {
            let x = f32::from_bits(word);
            Some(Setpoint::Pressure(x))
        }
        (2, _) => Some(Setpoint::Speed(word)),
        (3, 0) => Some(Setpoint::Valve(false)),
        (3, 1) => Some(Setpoint::Valve(true)),
        _ => None,
    }
}

// Four bytes, low byte first, as a word.
// (b) `u32::from_le_bytes` before `setting` loads byte by byte: 4 instructions more a line of a book, 9 % of a read.
pub fn join(a: u8, b: u8, c: u8, d: u8) -> u32
    ensures { result ≡ join_of a b c d }
{
    u32::from(a) + u32::from(b) * 256 + u32::from(c) * 65536 + u32::from(d) * 16777216
}

// What five bytes mean.
pub fn decode(b: &[u8; 5]) -> Option<Setpoint>
    ensures { result ≡ decode_of b.now }
{
    setting(b[0], join(b[1], b[2], b[3], b[4]))
}
