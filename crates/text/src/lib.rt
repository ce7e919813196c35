// Words and numbers as text, put into lent memory. Each function answers the place behind what it put.
#![tactic(auto)]

ghost use Rattle.std.specs.Prelude.{◌+◌, ◌/◌, ◌%◌, ◌^◌, ◌≤◌, ◌<◌, ◌≡◌, [], ◌∷◌, length};
ghost use Rattle.text.specs.Decimal.{decimal, hundredths, aligned};
ghost use Rattle.text.specs.Put.{Put, leading, leading_byte};

pub fn put_byte(out: &mut [u8], at: usize, byte: u8) -> usize
    requires { at + 1 ≤ length out.old }
    ensures { Put out.old at (byte ∷ []) out.new result }
{
    out[at] = byte;
    at + 1
}

pub fn put_text(out: &mut [u8], at: usize, text: &[u8]) -> usize
    requires { at + length text.now ≤ length out.old }
    ensures { Put out.old at text.now out.new result }
{
    let end = at + text.len();
    out[at..end].copy_from_slice(text);
    end
}

// The decimal digits of x, none cut and none added.
pub fn put_decimal(out: &mut [u8], at: usize, x: u64) -> usize
    requires { at + length (decimal x) ≤ length out.old }
    ensures { Put out.old at (decimal x) out.new result }
{
    put_aligned(out, at, decimal_length(x), x)
}

// How many digits x has.
fn decimal_length(x: u64) -> usize
    ensures { result ≡ length (decimal x) }
{
    x.max(1).ilog10() as usize + 1
}

// The decimal digits of x, right-aligned in a column of `width` bytes.
pub fn put_aligned(out: &mut [u8], at: usize, width: usize, x: u64) -> usize
    requires { (1 ≤ width) × (x < 10 ^ width) × (at + width ≤ length out.old) }
    ensures put { Put out.old at (aligned width (decimal x)) out.new result }
    ensures value { result ≡ at + width }
{
    let last = at + width - 1;
    put_leading(&mut out[at..last], x / 10);
    put_byte(out, last, digit(x))
}

// What stands in a column before its last digit, from right to left: the digits that are left, and
// spaces before them.
fn put_leading(column: &mut [u8], rest: u64)
    requires { rest < 10 ^ length column.old }
    ensures { column.new ≡ leading (length column.old) rest }
{
    let mut left = rest;
    for i in (0..column.len()).rev() {
        column[i] = leading_byte(left);
        left /= 10;
    }
}

// A space where no digit is left, and the last digit otherwise.
fn leading_byte(rest: u64) -> u8
    ensures { result ≡ leading_byte rest }
{
    if rest == 0 {
        return b' ';
    }
    digit(rest)
}

// Hundredths with a point, right-aligned in a column of `width` digits before the point.
pub fn put_hundredths(out: &mut [u8], at: usize, width: usize, x: u64) -> usize
    requires { (1 ≤ width) × (x / 100 < 10 ^ width) × (at + width + 3 ≤ length out.old) }
    ensures put { Put out.old at (aligned (width + 3) (hundredths x)) out.new result }
    ensures value { result ≡ at + width + 3 }
{
    let tenths = digit(x / 10);
    let last = digit(x);
    let at = put_aligned(out, at, width, x / 100);
    let at = put_byte(out, at, b'.');
    let at = put_byte(out, at, tenths);
    put_byte(out, at, last)
}

// The last digit of x, as a byte: the library has no conversion that says so.
fn digit(x: u64) -> u8
    ensures { result ≡ 48 + x % 10 }
{
    b'0' + (x % 10) as u8
}
