// The quotient of brackets by a divisor whose lower end is above zero: two roundings, by the signs of the numerator's ends; and by a small
// whole number, which has one end. Assumes nothing.
ghost use Rattle.std.specs.Prelude.{◌≡◌, suc, ◌≤◌, ◌<◌};
ghost use Rattle.exact.specs.Fraction.{nat, ◌≺◌};
ghost use Rattle.sheet.specs.Number.{value};
ghost use Rattle.bracket.specs.Span.{whole};
ghost use Rattle.bracket.specs.Rules.{ends, divided};
ghost use Rattle.bracket.specs.Held.{Held};

use crate::Bracket;
use crate::picked::end;

// Each end of the numerator takes its own end of the divisor: toward zero the divisor is the upper one.
pub fn quotient(v: u64, a: Bracket, b: Bracket) -> Bracket
    requires { Held v a × Held v b × (nat 0 ≺ value b.lo) }
    ensures { result ≡ divided (suc v) (ends a) (ends b) }
{
    let below = end(v, !a.lo.neg, b);
    let above = end(v, a.hi.neg, b);
    let lo = sheet::quotient(v, false, a.lo, below);
    let hi = sheet::quotient(v, true, a.hi, above);
    Bracket { lo, hi }
}

// By a step's count, which is exact: each end for itself.
pub fn share(v: u64, a: Bracket, n: u64) -> Bracket
    requires { Held v a × (0 < n) × (n ≤ 2048) }
    ensures { result ≡ divided (suc v) (ends a) (whole n) }
{
    let lo = sheet::share(v, false, a.lo, n);
    let hi = sheet::share(v, true, a.hi, n);
    Bracket { lo, hi }
}
