// Pressure, stiffness and Gibbs gap of states by the sums over a table, and the gaps of pressure. One state takes one pass over the table, a
// pair two: the sums are handed in. Inputs of any kind are taken.
// Stays: accepted t and rho each by itself: most of what is here and in `inputs` takes one of the two alone.
ghost use Rattle.std.specs.Prelude.{◌≡◌, suc, T};
ghost use Rattle.sheet.specs.Range.{Width};
ghost use Rattle.kind.specs.Kind.{widest};
ghost use Rattle.doubles.specs.Double.{exact_of};
ghost use Rattle.doubles.specs.Range.{accepted_temperature, accepted_density, accepted_target};
ghost use Rattle.bracket.specs.Rules.{ends, given, minus};
ghost use Rattle.series.specs.Pair.{Pair};
ghost use Rattle.equation.specs.Rules.{density_heat, pressure_factor, stiffness_factor, sums_apart, pressure_of, stiffness_of, gibbs_gap_of};
ghost use Rattle.equation.specs.Ranged.{SumsIn, PressureIn};

use crate::{Sums, inputs};
use bracket::Bracket;

// (rho times R) times T
pub fn density_heat(v: u64, t: f64, rho: f64) -> Bracket
    requires { Width v × T (accepted_temperature widest t) × T (accepted_density widest rho) }
    ensures { result ≡ density_heat (suc v) (exact_of t) (exact_of rho) }
{
    let density = bracket::given(v, rho);
    let temperature = bracket::given(v, t);
    bracket::product(v, bracket::product(v, density, inputs::gas(v)), temperature)
}

// 1 + S1
fn pressure_factor(v: u64, s: Sums) -> Bracket
    requires { SumsIn v s }
    ensures { result ≡ pressure_factor (suc v) s }
{
    let one = bracket::whole(v, 1);
    bracket::sum(v, one, s.s1)
}

// (1 + (2 times S1)) + S2
fn stiffness_factor(v: u64, s: Sums) -> Bracket
    requires { SumsIn v s }
    ensures { result ≡ stiffness_factor (suc v) s }
{
    let one = bracket::whole(v, 1);
    let twice = bracket::product(v, bracket::whole(v, 2), s.s1);
    bracket::sum(v, bracket::sum(v, one, twice), s.s2)
}

// (S0 + S1) of the liquid less (S0 + S1) of the vapour
fn sums_apart(v: u64, l: Sums, g: Sums) -> Bracket
    requires { SumsIn v l × SumsIn v g }
    ensures { result ≡ sums_apart (suc v) l g }
{
    let of_liquid = bracket::sum(v, l.s0, l.s1);
    let of_vapour = bracket::sum(v, g.s0, g.s1);
    bracket::difference(v, of_liquid, of_vapour)
}

pub fn pressure_of(v: u64, t: f64, rho: f64, s: Sums) -> Bracket
    requires { (T (accepted_temperature widest t) × T (accepted_density widest rho)) × SumsIn v s }
    ensures { result ≡ pressure_of (suc v) (exact_of t) (exact_of rho) s }
{
    let heat = density_heat(v, t, rho);
    bracket::product(v, heat, pressure_factor(v, s))
}

// Stays: not one function with `pressure_of`, for the two share no more than their last product.
pub fn stiffness_of(v: u64, t: f64, s: Sums) -> Bracket
    requires { T (accepted_temperature widest t) × SumsIn v s }
    ensures { result ≡ stiffness_of (suc v) (exact_of t) s }
{
    let heat = inputs::gas_heat(v, t);
    bracket::product(v, heat, stiffness_factor(v, s))
}

// The sums are those of the liquid and of the vapour, whose density is at most the liquid's.
pub fn gibbs_gap_of(v: u64, t: f64, liquid: f64, vapour: f64, l: Sums, g: Sums) -> Bracket
    requires { T (accepted_temperature widest t) × Pair liquid vapour × SumsIn v l × SumsIn v g }
    ensures { result ≡ gibbs_gap_of (suc v) (exact_of t) (exact_of liquid) (exact_of vapour) l g }
{
    let heat = inputs::gas_heat(v, t);
    let logarithm = series::ln_ratio(v, liquid, vapour);
    let apart = sums_apart(v, l, g);
    bracket::product(v, heat, bracket::sum(v, logarithm, apart))
}

// Pressure less target.
pub fn target_gap_of(v: u64, p: Bracket, target: f64) -> Bracket
    requires { PressureIn v p × T (accepted_target widest target) }
    ensures { result ≡ minus (suc v) (ends p) (ends (given (suc v) (exact_of target))) }
{
    let aim = bracket::given(v, target);
    bracket::difference(v, p, aim)
}

// Pressure of the liquid less that of the vapour.
pub fn pressure_gap_of(v: u64, liquid: Bracket, vapour: Bracket) -> Bracket
    requires { PressureIn v liquid × PressureIn v vapour }
    ensures { result ≡ minus (suc v) (ends liquid) (ends vapour) }
{
    bracket::difference(v, liquid, vapour)
}
