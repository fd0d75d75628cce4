// A number's digits in a base, put into a line at a place.
ghost use Rattle.std.specs.Prelude.{◌≡◌, ◌||◌, ◌++◌, ◌∷◌, [], ◌+◌, ◌%◌, ◌<◌, ◌≤◌, leb};
ghost use Rattle.line.specs.Digits.{glyph_of, digits_of, decimal_of, hex_of};
ghost use Rattle.lent.specs.Put.{Put};

// A decimal number and a space.
pub fn decimal(out: &mut [u8; 97], at: usize, n: u64) -> usize
    requires { at + 21 ≤ 97 }
    ensures put { Put out.old at (decimal_of n ++ 32 ∷ []) out.new result }
    ensures upper_bound { result ≤ at + 21 }
{
    let end = digits(out, at, n, 10, false, 20);
    lent::put_byte(out, end, b' ')
}

// Sixteen hexadecimal digits and one byte more.
pub fn hex(out: &mut [u8; 97], at: usize, n: u64, after: u8) -> usize
    requires { at + 17 ≤ 97 }
    ensures put { Put out.old at (hex_of n ++ after ∷ []) out.new result }
    ensures upper_bound { result ≤ at + 17 }
{
    let end = digits(out, at, n, 16, true, 16);
    lent::put_byte(out, end, after)
}

// The digits of n in base, with zeros in front up to `most` digits if they are asked for. Answers the place after them.
fn digits(out: &mut [u8; 97], at: usize, n: u64, base: u64, zeros: bool, most: usize) -> usize
    requires base_nonzero { 0 < base }
    requires base_bound { base ≤ 16 }
    requires most_bound { at + most ≤ 97 }
    ensures put { Put out.old at (digits_of base zeros most n) out.new result }
    ensures upper_bound { result ≤ at + most }
{
    if most == 0 {
        return at;
    }
    if more(n, base, zeros) {
        let end = digits(out, at, n / base, base, zeros, most - 1);
        last(out, end, n, base)
    } else {
        last(out, at, n, base)
    }
}

// Whether a digit stands before the last one.
fn more(n: u64, base: u64, zeros: bool) -> bool
    ensures { result ≡ (zeros || leb base n) }
{
    zeros || base <= n
}

// The last digit.
fn last(out: &mut [u8; 97], at: usize, n: u64, base: u64) -> usize
    requires base_nonzero { 0 < base }
    requires base_bound { base ≤ 16 }
    requires at_bound { at < 97 }
    ensures { Put out.old at (glyph_of (n % base) ∷ []) out.new result }
{
    lent::put_byte(out, at, glyph(n % base))
}

// A digit's letter.
fn glyph(d: u64) -> u8
    requires { d < 16 }
    ensures { result ≡ glyph_of d }
{
    if d < 10 {
        b'0' + d as u8
    } else {
        b'a' + (d as u8 - 10)
    }
}
