// The f64 of exactly a given value.
ghost use Rattle.std.specs.Prelude.{◌≡◌, ◌*◌, ◌^◌, ◌<◌};
ghost use Rattle.exact.specs.Fraction.{parts};
ghost use Rattle.sheet.specs.Number.{bias, value};
ghost use Rattle.sheet.specs.Range.{Doubled};
ghost use Rattle.doubles.specs.Handed.{double_of};
ghost use Rattle.doubles.specs.Encoded.{Settled, Encodable};

use sheet::{Found, Sheet};

// The same size with 53 digits, or with fewer at the last place of an f64, 2^-1074: a subnormal one. Digits below that place are zeros.
fn settled(m: u64, e: u64) -> Found
    requires encodable { Encodable m e }
    requires m_nonzero { 0 < m }
    ensures { Settled m e result }
{
    let size = Found {
        m,
        sticky: false,
        e,
    };
    sheet::normalised(size, 52, 261070)
}

// The leading digit of 53 adds one to the exponent's field; a subnormal f64 has none, and the field 0.
pub fn encode(neg: bool, m: u64, e: u64) -> f64
    requires { Encodable m e }
    ensures { result ≡ double_of (parts neg (m * 2 ^ e) (2 ^ bias)) }
{
    if m == 0 {
        return 0.0;
    }
    let p = settled(m, e);
    let bits = (p.e - 261070) * 0x10_0000_0000_0000 + p.m;
    if neg {
        f64::from_bits(0x8000_0000_0000_0000 + bits)
    } else {
        f64::from_bits(bits)
    }
}

// An end as it is handed out.
pub fn double_of(s: Sheet) -> f64
    requires doubled { Doubled s }
    requires m_bound { s.m < 2 ^ 53 }
    ensures { result ≡ double_of (value s) }
{
    encode(s.neg, s.m, s.e)
}
