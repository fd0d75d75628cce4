// Given values: down and up of the exact value, one rounding each; a whole number is exact, so that both ends are one sheet number. Assumes
// nothing.
ghost use Rattle.std.specs.Prelude.{◌≡◌, suc, ◌<◌, ◌≤◌, ◌^◌, T};
ghost use Rattle.std.specs.Float.Ieee.Scale.{finite};
ghost use Rattle.doubles.specs.Double.{exact_of};
ghost use Rattle.exact.specs.Fraction.{nat, parts};
ghost use Rattle.sheet.specs.Range.{Width};
ghost use Rattle.bracket.specs.Rules.{given};

use crate::Bracket;

// A finite f64 means its exact value.
pub fn given(v: u64, x: f64) -> Bracket
    requires { Width v × T (finite x) }
    ensures { result ≡ given (suc v) (exact_of x) }
{
    let lo = doubles::decode::given(v, false, x);
    let hi = doubles::decode::given(v, true, x);
    Bracket { lo, hi }
}

// A whole number of at most 32 bits.
pub fn whole(v: u64, n: u64) -> Bracket
    requires { Width v × (n < 2 ^ 32) }
    ensures { result ≡ given (suc v) (nat n) }
{
    let end = sheet::whole(v, n);
    Bracket { lo: end, hi: end }
}

// A constant or a coefficient: a quotient of two whole numbers with its sign.
pub fn given_ratio(v: u64, neg: bool, num: u64, den: u64) -> Bracket
    requires { Width v × (0 < den) × (den ≤ 2 ^ 63) }
    ensures { result ≡ given (suc v) (parts neg num den) }
{
    let x = sheet::ratio(v, neg, num, den);
    let lo = x.down;
    let hi = x.up;
    Bracket { lo, hi }
}
