// The product of brackets. Where one factor has one sign, two roundings do: the signs say which ends meet. Where both reach across zero it
// takes four. A second factor that is nowhere below zero, as powers and exponentials are, comes first and takes least. Assumes nothing.
// Stays: tried with `&&`, `else` and the lesser and greater end chosen in place; a product then took 9 in 100 more instructions.
ghost use Rattle.std.specs.Prelude.{◌≡◌, true, false, not, cond, suc};
ghost use Rattle.exact.specs.Fraction.{least, greatest, leq, ◌⊗◌};
ghost use Rattle.sheet.specs.Number.{value};
ghost use Rattle.sheet.specs.Round.{down, up};
ghost use Rattle.sheet.specs.Range.{InRange};
ghost use Rattle.sheet.specs.Steps.{BothSpelled};
ghost use Rattle.bracket.specs.Span.{side};
ghost use Rattle.bracket.specs.Rules.{ends, times};
ghost use Rattle.bracket.specs.Held.{Held};
ghost use Rattle.bracket.specs.Meets.{nowhere_below, both_across, Meets};

use crate::Bracket;
use sheet::Sheet;

// Both are roundings, so the order of their values is decided on the spelling.
fn lesser(x: Sheet, y: Sheet) -> Sheet
    requires { BothSpelled x y }
    ensures { result ≡ cond (leq (value x) (value y)) x y }
{
    if sheet::at_most(x, y) { x } else { y }
}

fn greater(x: Sheet, y: Sheet) -> Sheet
    requires { BothSpelled x y }
    ensures { result ≡ cond (leq (value x) (value y)) y x }
{
    if sheet::at_most(x, y) { y } else { x }
}

// Both factors reach across zero: unlike ends for the least product, like ends for the greatest.
fn across(v: u64, a: Bracket, b: Bracket) -> Bracket
    requires { Held v a × Held v b }
    ensures { result ≡ record {
      lo = down (suc v) (least (value a.lo ⊗ value b.hi) (value a.hi ⊗ value b.lo));
      hi = up (suc v) (greatest (value a.lo ⊗ value b.lo) (value a.hi ⊗ value b.hi));
    } }
{
    let x = sheet::product(v, false, a.lo, b.hi);
    let y = sheet::product(v, false, a.hi, b.lo);
    let u = sheet::product(v, true, a.lo, b.lo);
    let w = sheet::product(v, true, a.hi, b.hi);
    let lo = lesser(x, y);
    let hi = greater(u, w);
    Bracket { lo, hi }
}

fn both_across(a: Bracket, b: Bracket) -> bool
    ensures { result ≡ both_across a b }
{
    if a.hi.neg {
        return false;
    }
    if b.hi.neg {
        return false;
    }
    if b.lo.neg { a.lo.neg } else { false }
}

// The ends that meet: p and q in the least product, r and s in the greatest.
#[derive(Clone, Copy)]
struct Meeting {
    p: Sheet,
    q: Sheet,
    r: Sheet,
    s: Sheet,
}

fn met(p: Sheet, q: Sheet, r: Sheet, s: Sheet) -> Meeting
    ensures { result ≡ record { p = p; q = q; r = r; s = s } }
{
    Meeting { p, q, r, s }
}

fn nowhere_below(b: Bracket) -> bool
    ensures { result ≡ nowhere_below b }
{
    if b.lo.neg { false } else { !b.hi.neg }
}

// The least product of x with a number of b, which is nowhere below zero: an x below zero meets the upper end. Each case has its own
// rounding, so that the sign is known in it.
fn least_grown(v: u64, x: Sheet, b: Bracket) -> Sheet
    requires { InRange v x × Held v b }
    ensures { result ≡ down (suc v) (value x ⊗ side x.neg (ends b)) }
{
    if x.neg {
        return sheet::product(v, false, x, b.hi);
    }
    sheet::product(v, false, x, b.lo)
}

// The greatest: an x below zero meets the lower end.
// Stays: tried as one function for both directions; called in two places it stays a call, and the bench program takes 26 ms for 19.
fn greatest_grown(v: u64, x: Sheet, b: Bracket) -> Sheet
    requires { InRange v x × Held v b }
    ensures { result ≡ up (suc v) (value x ⊗ side (not x.neg) (ends b)) }
{
    if x.neg {
        return sheet::product(v, true, x, b.lo);
    }
    sheet::product(v, true, x, b.hi)
}

// By a factor that is nowhere below zero.
fn grown(v: u64, a: Bracket, b: Bracket) -> Bracket
    requires { Held v a × Held v b × (nowhere_below b ≡ true) }
    ensures { result ≡ times (suc v) (ends a) (ends b) }
{
    let lo = least_grown(v, a.lo, b);
    let hi = greatest_grown(v, a.hi, b);
    Bracket { lo, hi }
}

// The table of signs where b is somewhere below zero: all of b, with a below, across, or at or above zero; or b across zero, with a below, or
// at or above zero.
fn chosen(v: u64, a: Bracket, b: Bracket) -> Meeting
    requires { Held v a × Held v b × (nowhere_below b ≡ false) × (both_across a b ≡ false) }
    ensures { Meets v a b result }
{
    if b.hi.neg {
        if a.hi.neg {
            return met(a.hi, b.hi, a.lo, b.lo);
        }
        if a.lo.neg {
            return met(a.hi, b.lo, a.lo, b.lo);
        }
        return met(a.hi, b.lo, a.lo, b.hi);
    }
    if a.hi.neg {
        return met(b.hi, a.lo, b.lo, a.lo);
    }
    met(b.lo, a.hi, b.hi, a.hi)
}

// One place for each end, after the choice, keeps the choice out of memory.
pub fn product(v: u64, a: Bracket, b: Bracket) -> Bracket
    requires { Held v a × Held v b }
    ensures { result ≡ times (suc v) (ends a) (ends b) }
{
    if nowhere_below(b) {
        return grown(v, a, b);
    }
    if both_across(a, b) {
        return across(v, a, b);
    }
    let m = chosen(v, a, b);
    let lo = sheet::product(v, false, m.p, m.q);
    let hi = sheet::product(v, true, m.r, m.s);
    Bracket { lo, hi }
}
