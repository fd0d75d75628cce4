// Which f64s the inputs accept by the kind of table, and comparisons, by exact value. Each contract is an equation with a rule of specs/.
// Stays: one function a quantity: each has a rule of its own to meet (`accepted_density` and its like), which names the same limits.
// Stays: `finite x` in contracts: C gives any f64, and a type for finite ones would be made and taken apart again at each comparison.
ghost use Rattle.std.specs.Prelude.{◌≡◌, not, T};
ghost use Rattle.std.specs.Float.Ieee.Scale.{finite};
ghost use Rattle.exact.specs.Fraction.{nat, leq};
ghost use Rattle.kind.specs.Kind.{highest};
ghost use Rattle.doubles.specs.Double.{exact_of};
ghost use Rattle.doubles.specs.Range.{within, accepted_temperature, accepted_pair_temperature, accepted_density, accepted_target, accepted_tolerance, within_tolerance};

// Whether x, any f64, is finite and from low to high, ends included.
pub fn lies_within(x: f64, low: f64, high: f64) -> bool
    requires low_finite { T (finite low) }
    requires high_finite { T (finite high) }
    ensures { result ≡ within (exact_of low) (exact_of high) x }
{
    low <= x && x <= high
}

// The state sheet's and the density check's.
pub fn accepts_temperature(kind: u64, t: f64) -> bool
    ensures { result ≡ accepted_temperature kind t }
{
    if kind == 58 {
        lies_within(t, 252.0, 1273.0)
    } else {
        lies_within(t, 273.0, 1273.0)
    }
}

// The pair check's, of both kinds: from the fraction 27316/100. No f64 lies from there up to the literal, so that this decides the same.
pub fn accepts_pair_temperature(t: f64) -> bool
    ensures { result ≡ accepted_pair_temperature t }
{
    lies_within(t, 273.16, 1273.0)
}

// From 1/1024.
pub fn accepts_density(kind: u64, rho: f64) -> bool
    ensures { result ≡ accepted_density kind rho }
{
    if kind == 58 {
        lies_within(rho, 0.0009765625, 2576.0)
    } else {
        lies_within(rho, 0.0009765625, 1288.0)
    }
}

pub fn accepts_target(kind: u64, p: f64) -> bool
    ensures { result ≡ accepted_target kind p }
{
    if kind == 58 {
        lies_within(p, 0.0, 25000000000.0)
    } else {
        lies_within(p, 0.0, 1000000000.0)
    }
}

pub fn accepts_tolerance(x: f64) -> bool
    ensures { result ≡ accepted_tolerance x }
{
    lies_within(x, 0.0, 1000000.0)
}

pub fn at_most(x: f64, y: f64) -> bool
    requires x_finite { T (finite x) }
    requires y_finite { T (finite y) }
    ensures { result ≡ leq (exact_of x) (exact_of y) }
{
    x <= y
}

pub fn above(x: f64, y: f64) -> bool
    requires x_finite { T (finite x) }
    requires y_finite { T (finite y) }
    ensures { result ≡ not (leq (exact_of x) (exact_of y)) }
{
    x > y
}

// A liquid lies above the critical density 322, a vapour below it.
pub fn above_critical(rho: f64) -> bool
    requires { T (finite rho) }
    ensures { result ≡ not (leq (exact_of rho) (nat 322)) }
{
    above(rho, 322.0)
}

pub fn below_critical(rho: f64) -> bool
    requires { T (finite rho) }
    ensures { result ≡ not (leq (nat 322) (exact_of rho)) }
{
    above(322.0, rho)
}

pub fn above_zero(x: f64) -> bool
    requires { T (finite x) }
    ensures { result ≡ not (leq (exact_of x) (nat 0)) }
{
    above(x, 0.0)
}

// Refusal 8's limit on a pressure's upper end.
pub fn above_pressure_limit(kind: u64, x: f64) -> bool
    requires { T (finite x) }
    ensures { result ≡ not (leq (exact_of x) (nat (highest kind))) }
{
    if kind == 58 {
        above(x, 25000000000.0)
    } else {
        above(x, 1000000000.0)
    }
}

// A gap's two ends against its tolerance.
pub fn passes(lower: f64, upper: f64, tolerance: f64) -> bool
    requires lower_finite { T (finite lower) }
    requires upper_finite { T (finite upper) }
    requires tolerance_finite { T (finite tolerance) }
    ensures { result ≡ within_tolerance (exact_of lower) (exact_of upper) (exact_of tolerance) }
{
    -tolerance <= lower && upper <= tolerance
}
