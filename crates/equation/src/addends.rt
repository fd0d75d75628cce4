// One term's addends of the three sums, by its fields and a state.
ghost use Rattle.std.specs.Prelude.{◌≡◌, suc, ◌<◌, ◌≤◌, ◌*◌};
ghost use Rattle.term.specs.Bounds.{Bounds};
ghost use Rattle.equation.specs.Rules.{term_v, term_w, factor_w, factor_s2, addends_of, addends};
ghost use Rattle.equation.specs.Value.{value_by, Valued};
ghost use Rattle.equation.specs.Ranged.{ReducedIn, GIn, EIn, VIn, WIn};

use crate::exponent::{factor_e, factor_g};
use crate::{Reduced, Sums, inputs};
use bracket::Bracket;
use term::Term;

// V by its parts: the coefficient times the powers of delta and tau, times E.
pub fn value(v: u64, coefficient: Bracket, delta: Bracket, tau: Bracket, e: Bracket) -> Bracket
    requires { Valued v coefficient delta tau e }
    ensures { result ≡ value_by (suc v) coefficient delta tau e }
{
    let by_delta = bracket::product(v, coefficient, delta);
    let by_tau = bracket::product(v, by_delta, tau);
    bracket::product(v, by_tau, e)
}

// Stays: `Bounds term` in contracts, and no invariant of `Term`, since a slice that C lends may hold any terms.
fn term_v(v: u64, term: Term, x: Reduced, e: Bracket) -> Bracket
    requires { Bounds term × ReducedIn v x × EIn v e }
    ensures { result ≡ term_v (suc v) term x.delta x.tau e }
{
    let coefficient = inputs::coefficient(v, term);
    let delta = bracket::power(v, x.delta, term.d);
    let tau = bracket::power(v, x.tau, term.t);
    value(v, coefficient, delta, tau, e)
}

// For c = 0 it is d.
// Stays: c, d and factor one by one here and in `scale`, `factor_e` and `factor_s2`: no two take the same of a term, and none its coefficient.
pub fn term_w(v: u64, d: u64, c: u64, g: Bracket) -> Bracket
    requires { ((0 < d) × (d ≤ 31)) × ((c ≤ 15) × GIn v g) }
    ensures { result ≡ term_w (suc v) d c g }
{
    if c == 0 {
        bracket::whole(v, d)
    } else {
        let part = bracket::product(v, bracket::whole(v, c), g);
        bracket::difference(v, bracket::whole(v, d), part)
    }
}

fn factor_w(v: u64, tw: Bracket) -> Bracket
    requires { WIn v tw }
    ensures { result ≡ factor_w (suc v) tw }
{
    let less = bracket::difference(v, tw, bracket::whole(v, 1));
    bracket::product(v, tw, less)
}

// For c = 0 the last part is absent.
pub fn factor_s2(v: u64, c: u64, g: Bracket, tw: Bracket) -> Bracket
    requires { (c ≤ 15) × (GIn v g × WIn v tw) }
    ensures { result ≡ factor_s2 (suc v) c g tw }
{
    if 1 <= c {
        let part = bracket::product(v, bracket::whole(v, c * c), g);
        bracket::difference(v, factor_w(v, tw), part)
    } else {
        factor_w(v, tw)
    }
}

fn addends_of(v: u64, c: u64, g: Bracket, tv: Bracket, tw: Bracket) -> Sums
    requires { ((c ≤ 15) × GIn v g) × (VIn v tv × WIn v tw) }
    ensures { result ≡ addends_of (suc v) c g tv tw }
{
    let s1 = bracket::product(v, tv, tw);
    let s2 = bracket::product(v, tv, factor_s2(v, c, g, tw));
    Sums { s0: tv, s1, s2 }
}

pub fn addends(v: u64, term: Term, x: Reduced) -> Sums
    requires { Bounds term × ReducedIn v x }
    ensures { result ≡ addends (suc v) term x.delta x.tau }
{
    let g = factor_g(v, term, x.delta);
    let tv = term_v(v, term, x, factor_e(v, term.c, g));
    addends_of(v, term.c, g, tv, term_w(v, term.d, term.c, g))
}
