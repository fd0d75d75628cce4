// A term's g and E: the factor times a power of delta, and the exponential of minus that, clipped where g passes 128.
ghost use Rattle.std.specs.Prelude.{◌≡◌, suc, ◌<◌, ◌≤◌};
ghost use Rattle.term.specs.Bounds.{Bounds};
ghost use Rattle.exact.specs.Fraction.{nat, leq};
ghost use Rattle.sheet.specs.Number.{value};
ghost use Rattle.bracket.specs.Held.{Held};
ghost use Rattle.equation.specs.Rules.{scaled, g_of, factor_e};
ghost use Rattle.equation.specs.Clip.{clip_at, exponent_of, started_at};
ghost use Rattle.equation.specs.Ranged.{DeltaIn, GIn};

use bracket::Bracket;
use sheet::Sheet;
use term::Term;

// g by the power of delta: the factor times it. For c = 0 no factor enters, and 100 hundredths are 1, which changes no bracket.
pub fn scale(v: u64, c: u64, factor: u64, power: Bracket) -> Bracket
    requires { Held v power × ((0 < c → 0 < factor) × (factor ≤ 1023)) }
    ensures { result ≡ scaled (suc v) c factor power }
{
    if c == 0 || factor == 100 {
        return power;
    }
    bracket::product(v, bracket::given_ratio(v, false, factor, 100), power)
}

// g of a term, the factor times delta^c.
pub fn factor_g(v: u64, term: Term, delta: Bracket) -> Bracket
    requires { Bounds term × DeltaIn v delta }
    ensures { result ≡ g_of (suc v) term.c term.factor delta }
{
    scale(v, term.c, term.factor, bracket::power(v, delta, term.c))
}

// The smaller of 128 and g's lower end.
// Stays: no `min`, which asks for an order on `Sheet` that agrees with `==`, and one number may be spelled in several ways.
fn clip_at(v: u64, g: Bracket) -> Sheet
    requires { GIn v g }
    ensures { result ≡ clip_at (suc v) g }
{
    let most = sheet::whole(v, 128);
    let lo = g.lo;
    if sheet::at_most(most, lo) { most } else { lo }
}

// Whether g's upper end is at most 128.
fn within(v: u64, g: Bracket) -> bool
    requires { GIn v g }
    ensures { result ≡ leq (value g.hi) (nat 128) }
{
    sheet::at_most(g.hi, sheet::whole(v, 128))
}

// What the exponential is taken of: all of g, or the clip's point.
#[tactic(auto, unfolding(crate::specs::Clip::exponent_of))]
fn exponent(v: u64, g: Bracket, all: bool) -> Bracket
    requires { GIn v g }
    ensures { result ≡ exponent_of (suc v) all g }
{
    if all {
        return g;
    }
    let at = clip_at(v, g);
    Bracket { lo: at, hi: at }
}

// A clipped E starts at zero.
#[tactic(auto, unfolding(crate::specs::Clip::started_at))]
fn started(e: Bracket, all: bool) -> Bracket
    ensures { result ≡ started_at all e }
{
    if all {
        return e;
    }
    Bracket {
        lo: Sheet::ZERO,
        hi: e.hi,
    }
}

// For c = 0 there is no exponential. It is called in one place, clipped or not: that keeps kind 38 as fast as without the clip.
pub fn factor_e(v: u64, c: u64, g: Bracket) -> Bracket
    requires { GIn v g }
    ensures { result ≡ factor_e (suc v) c g }
{
    if 0 < c {
        let all = within(v, g);
        let x = exponent(v, g, all);
        started(series::expneg(v, x), all)
    } else {
        bracket::whole(v, 1)
    }
}
