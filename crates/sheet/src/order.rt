// The order of sheet numbers, and the mirror of one. Assumes nothing.
ghost use Rattle.std.specs.Prelude.{◌≡◌, ◌*◌, ◌^◌, leb};
ghost use Rattle.exact.specs.Fraction.{leq};
ghost use Rattle.sheet.specs.Number.{value, negate_sheet};
ghost use Rattle.sheet.specs.Steps.{BothFit, BothSpelled};

use crate::Sheet;
use crate::place::signed;

// Whether one magnitude is not above another: by place, then by digits.
pub fn not_above(am: u64, ae: u64, bm: u64, be: u64) -> bool
    requires { BothFit am ae bm be }
    ensures { result ≡ leb (am * 2 ^ ae) (bm * 2 ^ be) }
{
    if ae == be { am <= bm } else { ae < be }
}

pub fn at_most(a: Sheet, b: Sheet) -> bool
    requires { BothSpelled a b }
    ensures { result ≡ leq (value a) (value b) }
{
    if a.neg != b.neg {
        a.neg
    } else if a.neg {
        not_above(b.m, b.e, a.m, a.e)
    } else {
        not_above(a.m, a.e, b.m, b.e)
    }
}

pub fn negated(a: Sheet) -> Sheet
    ensures { result ≡ negate_sheet a }
{
    signed(!a.neg, a.m, a.e)
}
