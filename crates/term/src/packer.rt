// A term packed into nine or twelve bytes of a lent buffer. All other bytes stay.
ghost use Rattle.std.specs.Prelude.{◌≡◌, ◌+◌, ◌<◌, ◌≤◌, length};
ghost use Rattle.lent.specs.Put.{Put};
ghost use Rattle.term.specs.Bounds.{WithinFields, WithinLong};
ghost use Rattle.term.specs.Long.{long_head, pack_long};
ghost use Rattle.term.specs.Pack.{bytes_of, sign_bit, head_of, pack};

use super::Term;

// The lowest n bytes of a number, most significant first. Answers the place after them.
fn put_number(out: &mut [u8], at: usize, n: usize, number: u64) -> usize
    requires { (at + n ≤ length out.old) × (n ≤ 8) }
    ensures { Put out.old at (bytes_of n number) out.new result }
{
    lent::put_bytes(out, at, &number.to_be_bytes()[8 - n..])
}

fn sign(negative: bool) -> u64
    ensures { (result ≡ sign_bit negative) × (result < 2) }
{
    u64::from(negative)
}

// The twelve bits before the magnitude: c, d, t and the sign.
fn head(term: Term) -> u64
    requires { WithinFields term }
    ensures { result ≡ head_of term }
{
    ((term.c * 16 + term.d) * 32 + term.t) * 2 + sign(term.negative)
}

// Eight of the head's bits fill the first byte; the other four and the magnitude are a word.
pub fn put_term(out: &mut [u8], at: usize, term: Term) -> usize
    requires { (at + 9 ≤ length out.old) × WithinFields term }
    ensures { Put out.old at (pack term) out.new result }
{
    let head = head(term);
    let word = put_number(out, at, 1, head / 16);
    put_number(
        out,
        word,
        8,
        head % 16 * 1152921504606846976 + term.magnitude,
    )
}

// The 26 bits before the magnitude: c, factor, d, t and the sign.
fn long_head(term: Term) -> u64
    requires { WithinLong term }
    ensures { result ≡ long_head term }
{
    (((term.c * 1024 + term.factor) * 32 + term.d) * 64 + term.t) * 2 + sign(term.negative)
}

// Stays: apart from `put_term`, since its head has other fields and is cut elsewhere; the bytes are put by one function.
// The head and the magnitude's first six bits fill four bytes; its other 54 and ten spare bits are a word.
pub fn put_long(out: &mut [u8], at: usize, term: Term) -> usize
    requires { (at + 12 ≤ length out.old) × WithinLong term }
    ensures { Put out.old at (pack_long term) out.new result }
{
    let head = long_head(term);
    let magnitude = term.magnitude;
    let word = put_number(out, at, 4, head * 64 + magnitude / 18014398509481984);
    put_number(out, word, 8, magnitude % 18014398509481984 * 1024)
}
