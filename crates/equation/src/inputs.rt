// What the inputs and the constants give: delta, tau, a term's coefficient, and R times T. Inputs of any kind are taken.
ghost use Rattle.std.specs.Prelude.{◌≡◌, suc, T};
ghost use Rattle.sheet.specs.Range.{Width};
ghost use Rattle.kind.specs.Kind.{widest};
ghost use Rattle.doubles.specs.Double.{exact_of};
ghost use Rattle.doubles.specs.Range.{accepted_temperature, accepted_density};
ghost use Rattle.bracket.specs.Rules.{given};
ghost use Rattle.equation.specs.Constants.{gas_constant};
ghost use Rattle.equation.specs.Rules.{delta, tau, coefficient, gas_heat};

use bracket::Bracket;
use term::Term;

pub fn delta(v: u64, rho: f64) -> Bracket
    requires { Width v × T (accepted_density widest rho) }
    ensures { result ≡ delta (suc v) (exact_of rho) }
{
    let density = bracket::given(v, rho);
    let critical = bracket::whole(v, 322);
    bracket::quotient(v, density, critical)
}

// Stays: not one function with `delta`, which divides by a whole number what the input gives; here the input's bracket is the divisor.
pub fn tau(v: u64, t: f64) -> Bracket
    requires { Width v × T (accepted_temperature widest t) }
    ensures { result ≡ tau (suc v) (exact_of t) }
{
    let critical = bracket::given_ratio(v, false, 64714, 100);
    let temperature = bracket::given(v, t);
    bracket::quotient(v, critical, temperature)
}

// In units of ten to the minus 16.
#[tactic(auto, unfolding(crate::specs::Rules::coefficient))]
pub fn coefficient(v: u64, term: Term) -> Bracket
    requires { Width v }
    ensures { result ≡ coefficient (suc v) term }
{
    bracket::given_ratio(v, term.negative, term.magnitude, 10_000_000_000_000_000)
}

// R
pub fn gas(v: u64) -> Bracket
    requires { Width v }
    ensures { result ≡ given (suc v) gas_constant }
{
    bracket::given_ratio(v, false, 46151805, 100000)
}

pub fn gas_heat(v: u64, t: f64) -> Bracket
    requires { Width v × T (accepted_temperature widest t) }
    ensures { result ≡ gas_heat (suc v) (exact_of t) }
{
    let temperature = bracket::given(v, t);
    bracket::product(v, gas(v), temperature)
}
