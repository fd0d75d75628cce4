// The logarithm of a density ratio: the ratio without its whole powers of two, and the powers' share added back.
ghost use Rattle.std.specs.Prelude.{◌≡◌, suc, ◌^◌, ◌≤◌};
ghost use Rattle.sheet.specs.Range.{Width};
ghost use Rattle.doubles.specs.Double.{exact_of};
ghost use Rattle.doubles.specs.Ratio.{ratio_exponent};
ghost use Rattle.series.specs.Logarithm.{ratio_r, ratio_z, ln_ratio};
ghost use Rattle.series.specs.Pair.{Pair, NearOne};

use crate::logarithm::{ln_series, ln_two};
use bracket::Bracket;

fn two_to(k: u64) -> u64
    requires { k ≤ 21 }
    ensures { result ≡ 2 ^ k }
{
    1 << k
}

// Liquid divided by (vapour times 2^k).
fn ratio_r(v: u64, liquid: f64, vapour: f64, k: u64) -> Bracket
    requires { Width v × Pair liquid vapour × (k ≡ ratio_exponent (exact_of liquid) (exact_of vapour)) }
    ensures { result ≡ ratio_r (suc v) (exact_of liquid) (exact_of vapour) k }
{
    let divisor = bracket::product(v, bracket::given(v, vapour), bracket::whole(v, two_to(k)));
    bracket::quotient(v, bracket::given(v, liquid), divisor)
}

// (r - 1) / (r + 1).
fn ratio_z(v: u64, r: Bracket) -> Bracket
    requires { NearOne v r }
    ensures { result ≡ ratio_z (suc v) r }
{
    let one = bracket::whole(v, 1);
    let less = bracket::difference(v, r, one);
    let more = bracket::sum(v, r, one);
    bracket::quotient(v, less, more)
}

// (k times ln 2) + ln r.
pub fn ln_ratio(v: u64, liquid: f64, vapour: f64) -> Bracket
    requires { Width v × Pair liquid vapour }
    ensures { result ≡ ln_ratio (suc v) (exact_of liquid) (exact_of vapour) }
{
    let k = doubles::ratio::ratio_exponent(liquid, vapour);
    let r = ratio_r(v, liquid, vapour, k);
    let ln_r = ln_series(v, ratio_z(v, r));
    let powers = bracket::product(v, bracket::whole(v, k), ln_two(v));
    bracket::sum(v, powers, ln_r)
}
