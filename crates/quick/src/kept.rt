// What terms of one c, factor and d share at a density, taken once.
ghost use Rattle.std.specs.Prelude.{◌≡◌, suc};
ghost use Rattle.quick.specs.Kept.{kept_of, Keepable};

use crate::ready::Row;
use bracket::Bracket;

// g, the exponential, w, and what V is multiplied by in the second sum.
#[derive(Clone, Copy)]
pub struct Kept {
    pub g: Bracket,
    pub e: Bracket,
    pub w: Bracket,
    pub s2: Bracket,
}

// By delta to the power c, for the row at place i. It takes g and e over from the first place with its c and factor, where that lies before it.
pub fn kept_for(v: u64, i: usize, row: Row, g: Bracket, e: Bracket, power: Bracket) -> Kept
    requires { Keepable v i row g e power }
    ensures { result ≡ kept_of (suc v) row.term power }
{
    let term = row.term;
    let g = if row.same < i {
        g
    } else {
        equation::scale(v, term.c, term.factor, power)
    };
    let e = if row.same < i {
        e
    } else {
        equation::factor_e(v, term.c, g)
    };
    let w = equation::term_w(v, term.d, term.c, g);
    let s2 = equation::factor_s2(v, term.c, g, w);
    Kept { g, e, w, s2 }
}
