// The logarithm's series: odd powers of z, each divided by its own exponent, summed left to right and doubled.
ghost use Rattle.std.specs.Prelude.{◌≡◌, suc, ◌+◌, ◌*◌, ◌≤◌};
ghost use Rattle.sheet.specs.Range.{Width};
ghost use Rattle.bracket.specs.Rules.{ends, divided};
ghost use Rattle.bracket.specs.Span.{whole};
ghost use Rattle.bracket.specs.Held.{Held};
ghost use Rattle.series.specs.Logarithm.{ln_series, ln_two};
ghost use Rattle.series.specs.Powers.{Argument};

use bracket::Bracket;

// Power j divided by 2j + 1.
fn share(v: u64, power: Bracket, j: u64) -> Bracket
    requires { Held v power × (j ≤ 20) }
    ensures { result ≡ divided (suc v) (ends power) (whole (2 * j + 1)) }
{
    bracket::share(v, power, 2 * j + 1)
}

// The next power is the one before times (z times z). The last quotient's upper end counts once more in the upper end of the sum; then
// doubled.
pub fn ln_series(v: u64, z: Bracket) -> Bracket
    requires { Argument v z }
    ensures { result ≡ ln_series (suc v) z }
{
    let square = bracket::product(v, z, z);
    let mut power = z;
    let mut sum = share(v, z, 0);
    for j in 0..20 {
        power = bracket::product(v, power, square);
        sum = bracket::sum(v, sum, share(v, power, j + 1));
    }
    let total = bracket::add_last(v, sum, share(v, power, 20));
    bracket::product(v, bracket::whole(v, 2), total)
}

// The same rule with z = 1/3.
pub fn ln_two(v: u64) -> Bracket
    requires { Width v }
    ensures { result ≡ ln_two (suc v) }
{
    ln_series(v, bracket::given_ratio(v, false, 1, 3))
}
