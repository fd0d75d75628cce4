// B and C by their sums over a table, and the pressure of their polynomial.
ghost use Rattle.std.specs.Prelude.{◌≡◌, suc, T};
ghost use Rattle.kind.specs.Kind.{widest};
ghost use Rattle.doubles.specs.Double.{exact_of};
ghost use Rattle.doubles.specs.Range.{accepted_temperature, accepted_density};
ghost use Rattle.virial.specs.Rules.{second_of, third_of, coefficients, polynomial, pressure_of};
ghost use Rattle.virial.specs.Ranged.{SumIn, CoefficientsIn};

use crate::sums::sum_over;
use crate::{Coefficients, Pick};
use bracket::Bracket;
use verdict::Setting;

// B by the sum over d = 1.
fn second_of(v: u64, first: Bracket) -> Bracket
    requires { SumIn v first }
    ensures { result ≡ second_of (suc v) first }
{
    bracket::share(v, first, 322)
}

// C by the sums over d = 2, and over d = 1 and c = 1.
fn third_of(v: u64, second: Bracket, damped: Bracket) -> Bracket
    requires { SumIn v second × SumIn v damped }
    ensures { result ≡ third_of (suc v) second damped }
{
    let apart = bracket::difference(v, second, damped);
    let twice = bracket::product(v, bracket::whole(v, 2), apart);
    let critical = bracket::whole(v, 322);
    let square = bracket::product(v, critical, critical);
    bracket::quotient(v, twice, square)
}

pub fn coefficients_of(setting: Setting, t: f64) -> Coefficients
    requires { (setting.table.kind ≡ 38) × T (accepted_temperature widest t) }
    ensures { result ≡ coefficients (suc setting.entry.v) setting.entry.table.bytes.now (exact_of t) }
{
    let v = setting.v;
    let tau = equation::tau(v, t);
    let first = sum_over::<38>(v, Pick::First, setting.table, tau);
    let second = sum_over::<38>(v, Pick::Second, setting.table, tau);
    let damped = sum_over::<38>(v, Pick::FirstDamped, setting.table, tau);
    Coefficients {
        second: second_of(v, first),
        third: third_of(v, second, damped),
    }
}

// (1 + (B times rho)) + ((C times rho) times rho)
fn polynomial(v: u64, rho: f64, x: Coefficients) -> Bracket
    requires { T (accepted_density widest rho) × CoefficientsIn v x }
    ensures { result ≡ polynomial (suc v) (exact_of rho) x }
{
    let density = bracket::given(v, rho);
    let linear = bracket::product(v, x.second, density);
    let square = bracket::product(v, bracket::product(v, x.third, density), density);
    let one = bracket::whole(v, 1);
    bracket::sum(v, bracket::sum(v, one, linear), square)
}

pub fn pressure_of(v: u64, t: f64, rho: f64, x: Coefficients) -> Bracket
    requires { (T (accepted_temperature widest t) × T (accepted_density widest rho)) × CoefficientsIn v x }
    ensures { result ≡ pressure_of (suc v) (exact_of t) (exact_of rho) x }
{
    let heat = equation::density_heat(v, t, rho);
    bracket::product(v, heat, polynomial(v, rho, x))
}
