// A row written into a line of 32 bytes, of which it takes at most 26. Each function answers the place after what it put.
ghost use Rattle.std.specs.Prelude.{◌≡◌, ◌∷◌, [], ◌+◌, ◌<◌, ◌≤◌};
ghost use Rattle.lent.specs.Put.{Put};
ghost use Rattle.row.specs.Row.{Good, spaced, front, digits, tail, row_text};

use super::Row;
use lent::{put_byte, put_bytes};

// A digit.
fn put_digit(out: &mut [u8; 32], at: usize, digit: u64) -> usize
    requires { (at < 32) × (digit < 10) }
    ensures { Put out.old at ((48 + digit) ∷ []) out.new result }
{
    put_byte(out, at, b'0' + digit as u8)
}

// A whole number and a space.
fn put_spaced(out: &mut [u8; 32], at: usize, n: u64) -> usize
    requires { (at + 3 ≤ 32) × (n < 100) }
    ensures put { Put out.old at (spaced n) out.new result }
    ensures upper_bound { result ≤ at + 3 }
{
    if n < 10 {
        let a = put_digit(out, at, n);
        return put_byte(out, a, b' ');
    }
    let a = put_digit(out, at, n / 10);
    let b = put_digit(out, a, n % 10);
    put_byte(out, b, b' ')
}

// A minus where needed, and "0.".
fn put_front(out: &mut [u8; 32], at: usize, negative: bool) -> usize
    requires { at + 3 ≤ 32 }
    ensures put { Put out.old at (front negative) out.new result }
    ensures upper_bound { result ≤ at + 3 }
{
    if negative {
        put_bytes(out, at, b"-0.")
    } else {
        put_bytes(out, at, b"0.")
    }
}

// The last k digits of n.
fn put_digits(out: &mut [u8; 32], at: usize, n: u64, k: usize) -> usize
    requires { at + k ≤ 32 }
    ensures put { Put out.old at (digits k n) out.new result }
    ensures value { result ≡ at + k }
{
    if k == 0 {
        return at;
    }
    let end = put_digits(out, at, n / 10, k - 1);
    put_digit(out, end, n % 10)
}

// The power and the line feed.
fn put_tail(out: &mut [u8; 32], at: usize, power: u64) -> usize
    requires { (at + 4 ≤ 32) × (power ≤ 7) }
    ensures put { Put out.old at (tail power) out.new result }
    ensures upper_bound { result ≤ at + 4 }
{
    let a = put_byte(out, at, b'e');
    if power < 6 {
        let b = put_byte(out, a, b'-');
        let c = put_digit(out, b, 6 - power);
        return put_byte(out, c, b'\n');
    }
    let b = put_digit(out, a, power - 6);
    put_byte(out, b, b'\n')
}

// The whole row at the line's front.
pub fn put_row(out: &mut [u8; 32], row: Row) -> usize
    requires { Good row }
    ensures put { Put out.old 0 (row_text row) out.new result }
    ensures upper_bound { result ≤ 26 }
{
    let a = put_spaced(out, 0, row.c);
    let b = put_spaced(out, a, row.d);
    let c = put_spaced(out, b, row.t);
    let d = put_front(out, c, row.negative);
    let e = put_digits(out, d, row.ten, 10);
    put_tail(out, e, row.power)
}
