// The fields that a row at a place would have, read off without refusing a byte; and whether some bytes stand at a place of a text.
ghost use Rattle.std.specs.Prelude.{◌≡◌, ◌+◌, ◌<◌, ◌≤◌, length, get_or, drop};
ghost use Rattle.row.specs.Guess.{figure, short_small, small_of, past, sign_of, front_past, number_of, power_of, guess_of};
ghost use Rattle.row.specs.Standing.{Stands};

use super::Row;

// The byte at a place, 0 behind the end.
fn byte_at(text: &[u8], at: usize) -> u8
    ensures { result ≡ get_or text.now at 0 }
{
    text.get(at).copied().unwrap_or(0)
}

// The digit that the byte there is, if it is one.
#[tactic(auto, unfolding(crate::specs::Guess::figure))]
fn figure_at(text: &[u8], at: usize) -> u64
    ensures value { result ≡ figure (get_or text.now at 0) }
    ensures upper_bound { result < 10 }
{
    u64::from(byte_at(text, at).saturating_sub(b'0') % 10)
}

// Whether a whole number there has one digit: a space stands behind it.
fn short_at(text: &[u8], at: usize) -> bool
    requires { at ≤ 8192 }
    ensures { result ≡ short_small (drop at text.now) }
{
    byte_at(text, at + 1) == b' '
}

// A whole number of one digit or two.
fn small_at(text: &[u8], at: usize) -> u64
    requires { at ≤ 8192 }
    ensures { result ≡ small_of (drop at text.now) }
{
    let first = figure_at(text, at);
    if short_at(text, at) {
        first
    } else {
        first * 10 + figure_at(text, at + 1)
    }
}

// Where the field behind it begins.
fn past_at(text: &[u8], at: usize) -> usize
    requires { at ≤ 8192 }
    ensures { (result ≡ at + past (drop at text.now)) × (result ≤ at + 3) }
{
    if short_at(text, at) { at + 2 } else { at + 3 }
}

// Whether a minus stands there.
fn minus_at(text: &[u8], at: usize) -> bool
    ensures { result ≡ sign_of (drop at text.now) }
{
    byte_at(text, at) == b'-'
}

// Where the ten digits begin, behind a minus, the 0 and the point.
fn front_at(text: &[u8], at: usize) -> usize
    requires { at ≤ 8192 }
    ensures { (result ≡ at + front_past (drop at text.now)) × (result ≤ at + 3) }
{
    if minus_at(text, at) { at + 3 } else { at + 2 }
}

// The number of ten digits.
fn ten_at(text: &[u8], at: usize) -> u64
    requires { at ≤ 8192 }
    ensures { result ≡ number_of (drop at text.now) 10 }
{
    let mut value: u64 = 0;
    for i in 0..10 {
        value = value * 10 + figure_at(text, at + i);
    }
    value
}

// The power, counted from -6, of what begins with e.
fn power_at(text: &[u8], at: usize) -> u64
    requires { at ≤ 8192 }
    ensures { result ≡ power_of (drop at text.now) }
{
    if byte_at(text, at + 1) == b'-' {
        6u64.saturating_sub(figure_at(text, at + 2))
    } else {
        6 + figure_at(text, at + 1)
    }
}

// Field by field.
pub fn guess(text: &[u8], at: usize) -> Row
    requires { at ≤ 4096 }
    ensures { result ≡ guess_of (drop at text.now) }
{
    let d = past_at(text, at);
    let t = past_at(text, d);
    let sign = past_at(text, t);
    let ten = front_at(text, sign);
    Row {
        c: small_at(text, at),
        d: small_at(text, d),
        t: small_at(text, t),
        negative: minus_at(text, sign),
        ten: ten_at(text, ten),
        power: power_at(text, ten + 10),
    }
}

// Whether a line stands at a place of the text.
pub fn stands(text: &[u8], at: usize, line: &[u8]) -> bool
    requires { at ≤ length text.now }
    ensures { Stands text.now at line.now result }
{
    text[at..].starts_with(line)
}
