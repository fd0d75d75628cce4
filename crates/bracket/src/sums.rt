// The sum and the difference of brackets, two roundings each, a series' last addend once more, and an upper end so many sheet numbers on.
// Assumes nothing.
ghost use Rattle.std.specs.Prelude.{◌≡◌, suc, ◌^◌, ◌≤◌};
ghost use Rattle.bracket.specs.Rules.{ends, plus, minus, addlast, stretched};
ghost use Rattle.bracket.specs.Held.{Held};

use crate::Bracket;

// Lower end and lower end give the least sum, upper and upper the greatest.
pub fn sum(v: u64, a: Bracket, b: Bracket) -> Bracket
    requires { Held v a × Held v b }
    ensures { result ≡ plus (suc v) (ends a) (ends b) }
{
    let lo = sheet::sum(v, false, a.lo, b.lo);
    let hi = sheet::sum(v, true, a.hi, b.hi);
    Bracket { lo, hi }
}

// The lower end less the upper is the least difference, the upper less the lower the greatest.
// Stays: apart from the sum: one function for both would take the operation, and stay a call as in `greatest_grown`.
pub fn difference(v: u64, a: Bracket, b: Bracket) -> Bracket
    requires { Held v a × Held v b }
    ensures { result ≡ minus (suc v) (ends a) (ends b) }
{
    let lo = sheet::difference(v, false, a.lo, b.hi);
    let hi = sheet::difference(v, true, a.hi, b.lo);
    Bracket { lo, hi }
}

// A series' sum s with its last addend t: t's upper end counts twice, in the upper end alone.
pub fn add_last(v: u64, s: Bracket, t: Bracket) -> Bracket
    requires { Held v s × Held v t }
    ensures { result ≡ addlast (suc v) s t }
{
    let lo = s.lo;
    let hi = sheet::sum(v, true, s.hi, t.hi);
    Bracket { lo, hi }
}

// A bracket's upper end goes n sheet numbers on.
pub fn stretched(v: u64, b: Bracket, n: u64) -> Bracket
    requires { Held v b × (n ≤ 2 ^ v) }
    ensures { result ≡ stretched (suc v) n b }
{
    let lo = b.lo;
    let hi = sheet::onward(v, b.hi, n);
    Bracket { lo, hi }
}
