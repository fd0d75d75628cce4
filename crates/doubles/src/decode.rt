// The exact parts of an f64.
ghost use Rattle.std.specs.Prelude.{◌≡◌, suc, T};
ghost use Rattle.std.specs.Float.Ieee.Scale.{finite};
ghost use Rattle.sheet.specs.Round.{round};
ghost use Rattle.sheet.specs.Range.{Width};
ghost use Rattle.doubles.specs.Double.{exact_of};
ghost use Rattle.doubles.specs.Decoded.{Decoded};

use sheet::Sheet;

// The value as it is, not rounded: the digits need not be as many as a width has. An exponent's field of 0 stands for a subnormal f64 or a
// zero: no leading digit, and the field counts as 1.
pub fn decode(x: f64) -> Sheet
    requires { T (finite x) }
    ensures { Decoded x result }
{
    let bits = x.to_bits();
    let field = bits % 0x8000_0000_0000_0000 / 0x10_0000_0000_0000;
    let digits = bits % 0x10_0000_0000_0000;
    let neg = 0x8000_0000_0000_0000 <= bits;
    if field == 0 {
        if digits == 0 {
            Sheet::ZERO
        } else {
            Sheet {
                neg,
                m: digits,
                e: 261070,
            }
        }
    } else {
        let m = 0x10_0000_0000_0000 + digits;
        let e = field + 261069;
        Sheet { neg, m, e }
    }
}

// An f64 as a given value: its exact value rounded once, up or down.
pub fn given(v: u64, up: bool, x: f64) -> Sheet
    requires { Width v × T (finite x) }
    ensures { result ≡ round up (suc v) (exact_of x) }
{
    let p = decode(x);
    sheet::rounded(v, up, p.neg, p.m, false, p.e)
}
