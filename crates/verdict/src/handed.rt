// Brackets as they are handed out, and the tests of a verdict on their ends.
// Stays: `Handy b` in contracts: laws of size show it of what the equation gives, and a type for it would wrap each bracket once more.
ghost use Rattle.std.specs.Prelude.{◌≡◌, not, T};
ghost use Rattle.std.specs.Float.Ieee.Scale.{finite};
ghost use Rattle.verdict.specs.Rules.{handed_out, under_ceiling, gap_passes, pushes_back};
ghost use Rattle.verdict.specs.Handed.{Handy, EndsFinite};

use crate::Ends;
use bracket::Bracket;

// Each end as the f64 of exactly its value.
pub fn handed_out(b: Bracket) -> Ends
    requires { Handy b }
    ensures { (result ≡ handed_out b) × EndsFinite result.lower result.upper }
{
    let lower = doubles::encode::double_of(b.lo);
    let upper = doubles::encode::double_of(b.hi);
    Ends { lower, upper }
}

// The upper end of pressure is at most the kind's ceiling.
pub fn under_ceiling(kind: u64, b: Bracket) -> bool
    requires { Handy b }
    ensures { result ≡ under_ceiling kind b }
{
    let ends = handed_out(b);
    !doubles::range::above_pressure_limit(kind, ends.upper)
}

// The gap lies within its tolerance.
pub fn gap_passes(b: Bracket, tolerance: f64) -> bool
    requires { Handy b × T (finite tolerance) }
    ensures { result ≡ gap_passes b tolerance }
{
    let ends = handed_out(b);
    doubles::range::passes(ends.lower, ends.upper, tolerance)
}

// The lower end is above 0.
pub fn pushes_back(b: Bracket) -> bool
    requires { Handy b }
    ensures { result ≡ pushes_back b }
{
    let ends = handed_out(b);
    doubles::range::above_zero(ends.lower)
}
