// Text put into a lent run, each function with the bytes that it puts: text, decimal numbers, forms.
// All of these are parts of whoever prints: they ask for room, which the caller has tested.
// A place goes beside the run, since `put_of` has both (a).
// (a) Not by `write!`: the library states no bytes of its `Write for &mut [u8]`, and all of these promise bytes.
#![tactic(auto)]

ghost use Rattle.std.specs.Prelude.{◌≡◌, ◌+◌, ◌*◌, ◌^◌, ◌<◌, ◌≤◌, length, get_or};
ghost use Rattle.text.specs.Decimal.{digit_count, decimal_of};
ghost use Rattle.print.specs.Print.{put_of, piece_of, after_of, form_of};

// Puts text at `at`, and says where it ends. A part.
pub fn put(out: &mut [u8], at: usize, text: &[u8]) -> usize
    requires { at + length text.now ≤ length out.old }
    ensures { (result, out.new) ≡ put_of out.old at text.now }
{
    let end = at + text.len();
    out[at..end].copy_from_slice(text);
    end
}

// Puts a number in decimal, where there is room for its digits. A part.
pub fn put_number(out: &mut [u8], at: usize, n: usize) -> usize
    requires { at + digit_count n ≤ length out.old }
    ensures { (result, out.new) ≡ put_of out.old at (decimal_of n) }
{
    let mut digits = [0u8; 20];
    let k = io::decimal(n as u64, &mut digits);
    put(out, at, &digits[..k])
}

// Puts what a byte of a form stands for.
fn put_piece(out: &mut [u8], at: usize, byte: u8, numbers: &[usize], k: usize) -> usize
    requires { at + 20 ≤ length out.old }
    ensures { (result, out.new) ≡ put_of out.old at (piece_of numbers.now k byte) }
{
    if byte == b'#' {
        return put_number(out, at, numbers.get(k).copied().unwrap_or(0));
    }
    put(out, at, &[byte])
}

// Which number comes next behind a byte of a form.
fn after(k: usize, byte: u8) -> usize
    requires { k + 1 < 2 ^ 64 }
    ensures { result ≡ after_of k byte }
{
    k + usize::from(byte == b'#')
}

// Puts a form: its bytes as they are, but for each `#` the next number. A part.
// (a) Which number comes next is counted: `form_of` and `after_of` count so.
pub fn put_form(out: &mut [u8], at: usize, form: &[u8], numbers: &[usize]) -> usize
    requires { at + 20 * length form.now ≤ length out.old }
    ensures { (result, out.new)
        ≡ put_of out.old at (form_of form.now numbers.now) }
{
    let mut used = at;
    let mut k = 0;
    for byte in form {
        used = put_piece(out, used, *byte, numbers, k);
        k = after(k, *byte);
    }
    used
}
