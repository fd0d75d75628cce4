// Reads numbers on their way in and out of sheet numbers from standard input and writes each result as a line, for a comparison bit for
// bit. A record is eight words, the width (32 or 53), the kind and six more, of which some are not used. Kinds: 0 a fraction (sign, numerator,
// divisor), 1 an f64 (its bits), 2 a whole number: the line is its bracket, six words; 3 a sheet number: the line is its f64's bits; else two
// sheet numbers: 1 if the first is at most the second, else 0. What no function takes, or no width, is answered by zeros. Assumes nothing.
#![tactic(auto)]

ghost use Rattle.std.specs.Prelude.{◌≡◌, true, ◌<◌, ◌^◌};
ghost use Rattle.sheet.specs.Range.{Width, Doubled};

use bracket::Bracket;
use sheet::Sheet;
use std::io;
use std::io::Write;

enum Kind {
    Fraction,
    Double,
    Whole,
    Bits,
    Order,
}

impl From<u64> for Kind {
    fn from(number: u64) -> Kind {
        match number {
            0 => Kind::Fraction,
            1 => Kind::Double,
            2 => Kind::Whole,
            3 => Kind::Bits,
            _ => Kind::Order,
        }
    }
}

fn fraction(width: u64, neg: bool, num: u64, den: u64) -> Option<Bracket> {
    let v = words::digits_of(width)?;
    if den == 0 || 9223372036854775808 < den {
        return None;
    }
    Some(bracket::given_ratio(v, neg, num, den))
}

fn double(width: u64, bits: u64) -> Option<Bracket> {
    let v = words::digits_of(width)?;
    let x = words::double(bits);
    if !x.is_finite() {
        return None;
    }
    Some(bracket::given(v, x))
}

fn whole(width: u64, n: u64) -> Option<Bracket> {
    let v = words::digits_of(width)?;
    if 4294967296 <= n {
        return None;
    }
    Some(bracket::whole(v, n))
}

// Whether the number, of at most v + 1 digits, is exactly an f64: what lies below 2^-1074 is zeros, and it is below 2^1024.
fn fits(v: u64, s: Sheet) -> bool
    requires { Width v }
    ensures { result ≡ true → Doubled s × (s.m < 2 ^ 53) }
{
    let m = s.m;
    let e = s.e;
    if 1 < m >> v || 263167 - v < e {
        return false;
    }
    if 261070 <= e {
        return true;
    }
    let below = 261070 - e;
    if 63 < below {
        return m == 0;
    }
    m >> below << below == m
}

fn bits_of(width: u64, s: Sheet) -> Option<u64> {
    let v = words::digits_of(width)?;
    if !fits(v, s) {
        return None;
    }
    Some(f64::to_bits(doubles::encode::double_of(s)))
}

fn at_most(width: u64, a: Sheet, b: Sheet) -> bool {
    let Some(v) = words::digits_of(width) else {
        return false;
    };
    words::usable(v, a) && words::usable(v, b) && sheet::at_most(a, b)
}

fn write_ends<W: Write>(output: &mut W, answer: Option<Bracket>) -> io::Result<()> {
    words::answer_line(output, answer.map(|b| [b.lo, b.hi]))
}

fn write_answer<W: Write>(output: &mut W, record: [u64; 8]) -> io::Result<()> {
    let [width, kind, x, y, z, ..] = record;
    let a = words::number(x, y, z);
    let b = words::number(record[5], record[6], record[7]);
    match Kind::from(kind) {
        Kind::Fraction => write_ends(output, fraction(width, x == 1, y, z)),
        Kind::Double => write_ends(output, double(width, x)),
        Kind::Whole => write_ends(output, whole(width, x)),
        Kind::Bits => words::line(output, &[bits_of(width, a).unwrap_or(0)]),
        Kind::Order => words::line(output, &[u64::from(at_most(width, a, b))]),
    }
}

// A proved loop has to end, so it makes at most as many turns as no run uses up.
fn main(rt: HostRuntime) -> io::Result<()> {
    let mut input = rt.stdin();
    let mut output = rt.stdout();
    for _ in 0..u64::MAX {
        let Some(record) = words::record(&mut input)? else {
            break;
        };
        write_answer(&mut output, record)?;
    }
    Ok(())
}
