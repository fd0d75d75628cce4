// The sum and the difference of two sheet numbers, rounded once. An addend that lies far below still moves the result: it is word of what
// was cut. Assumes nothing.
// Stays: `Addends v a b` in contracts: a struct of the two would be copied whole on the way, which `total` avoids.
ghost use Rattle.std.specs.Prelude.{◌≡◌, not, suc, ◌<◌, ◌≤◌};
ghost use Rattle.exact.specs.Fraction.{◌⊕◌, ◌⊖◌};
ghost use Rattle.sheet.specs.Number.{value};
ghost use Rattle.sheet.specs.Round.{round};
ghost use Rattle.sheet.specs.Range.{InRange};
ghost use Rattle.sheet.specs.Steps.{Aligned, Addends};

use crate::Sheet;
use crate::order::{negated, not_above};
use crate::place::{Found, cut, rounded, topped, trimmed};

// The digits of m · 2^e at a place not below e.
fn aligned(m: u64, e: u64, to: u64) -> Found
    requires { (0 < m) × (e ≤ to) }
    ensures { Aligned m e to result }
{
    let t = to - e;
    if t < 64 {
        cut(
            Found {
                m,
                sticky: false,
                e,
            },
            t,
        )
    } else {
        Found {
            m: 0,
            sticky: true,
            e: to,
        }
    }
}

// Two numbers of one sign: the digits of the lower one at the place of the higher are added, which makes one digit more at most.
fn added(v: u64, up: bool, a: Sheet, b: Sheet) -> Sheet
    requires { Addends v a b × (a.neg ≡ b.neg) }
    ensures { result ≡ round up (suc v) (value a ⊕ value b) }
{
    let x = aligned(b.m, b.e, a.e);
    trimmed(v, up, a.neg, a.m + x.m, x.sticky, a.e)
}

// Two numbers of different signs, at one place: nothing is cut.
fn level(v: u64, up: bool, a: Sheet, b: Sheet) -> Sheet
    requires { Addends v a b × (b.neg ≡ not a.neg) × (a.e ≡ b.e) }
    ensures { result ≡ round up (suc v) (value a ⊕ value b) }
{
    rounded(v, up, a.neg, a.m - b.m, false, a.e)
}

// Two numbers of different signs, at different places: the digits of the lower one, one place below those of the higher, are taken away;
// where something was cut, one more is taken and the rest stays.
fn taken(v: u64, up: bool, a: Sheet, b: Sheet) -> Sheet
    requires { Addends v a b × (b.neg ≡ not a.neg) × (b.e < a.e) }
    ensures { result ≡ round up (suc v) (value a ⊕ value b) }
{
    let x = aligned(b.m, b.e, a.e - 1);
    let more = u64::from(x.sticky);
    topped(v, up, a.neg, a.m * 2 - x.m - more, x.sticky, a.e - 1)
}

// The greater magnitude comes first.
fn ordered(v: u64, up: bool, a: Sheet, b: Sheet) -> Sheet
    requires { Addends v a b }
    ensures { result ≡ round up (suc v) (value a ⊕ value b) }
{
    if a.neg == b.neg {
        added(v, up, a, b)
    } else if a.e == b.e {
        level(v, up, a, b)
    } else {
        taken(v, up, a, b)
    }
}

// The sum of two numbers.
// Stays: by their parts, for a number that is handed over whole is copied two words at a time, and waits until both are stored.
fn total(v: u64, up: bool, am: u64, bm: u64, ae: u64, be: u64, aneg: bool, bneg: bool) -> Sheet
    requires { InRange v (record { neg = aneg; m = am; e = ae }) × InRange v (record { neg = bneg; m = bm; e = be }) }
    ensures { result ≡ round up (suc v) (value (record { neg = aneg; m = am; e = ae }) ⊕ value (record { neg = bneg; m = bm; e = be })) }
{
    let a = Sheet {
        neg: aneg,
        m: am,
        e: ae,
    };
    let b = Sheet {
        neg: bneg,
        m: bm,
        e: be,
    };
    if am == 0 {
        return b;
    }
    if bm == 0 {
        return a;
    }
    let fits = not_above(bm, be, am, ae);
    let first = if fits { a } else { b };
    let second = if fits { b } else { a };
    ordered(v, up, first, second)
}

pub fn sum(v: u64, up: bool, a: Sheet, b: Sheet) -> Sheet
    requires { InRange v a × InRange v b }
    ensures { result ≡ round up (suc v) (value a ⊕ value b) }
{
    total(v, up, a.m, b.m, a.e, b.e, a.neg, b.neg)
}

pub fn difference(v: u64, up: bool, a: Sheet, b: Sheet) -> Sheet
    requires { InRange v a × InRange v b }
    ensures { result ≡ round up (suc v) (value a ⊖ value b) }
{
    let c = negated(b);
    total(v, up, a.m, c.m, a.e, c.e, a.neg, c.neg)
}
