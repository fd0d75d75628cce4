// The three sums at one density: one pass over the rows, from zero, left to right.
ghost use Rattle.std.specs.Prelude.{◌≡◌, suc, T};
ghost use Rattle.sheet.specs.Range.{Width};
ghost use Rattle.kind.specs.Kind.{widest};
ghost use Rattle.doubles.specs.Double.{exact_of};
ghost use Rattle.doubles.specs.Range.{accepted_temperature, accepted_density};
ghost use Rattle.equation.specs.Rules.{plus_each, sums};
ghost use Rattle.equation.specs.Ranged.{AllHeld};
ghost use Rattle.quick.specs.Kept.{addends_by, Addable};
ghost use Rattle.quick.specs.Ready.{ReadyFor};

use crate::kept::kept_for;
use crate::powers::{NOTHING, powers};
use crate::ready::{Ready, Row};
use bracket::Bracket;
use equation::Sums;
use term::SoundTable;

// The sums with a row's addends, by its power of delta and what is kept for it.
// Stays: not by the equation's `plus_each`: all is done here and nothing is handed on whole, so the sums of the pass stay scalars.
fn add_row(
    v: u64,
    row: Row,
    delta: Bracket,
    e: Bracket,
    w: Bracket,
    factor: Bracket,
    s: Sums,
) -> Sums
    requires { Addable v row.coefficient delta row.tau e w factor × AllHeld v s }
    ensures { result ≡ plus_each (suc v) s (addends_by (suc v) row.coefficient delta row.tau e w factor) }
{
    let a0 = equation::value(v, row.coefficient, delta, row.tau, e);
    let a1 = bracket::product(v, a0, w);
    let a2 = bracket::product(v, a0, factor);
    let s0 = bracket::sum(v, s.s0, a0);
    let s1 = bracket::sum(v, s.s1, a1);
    let s2 = bracket::sum(v, s.s2, a2);
    Sums { s0, s1, s2 }
}

// What the terms share is kept at the first place that has it.
// Stays: four arrays and not one of `Kept`: a product reads a bracket where it lies, and not out of a whole copied from its place.
pub fn sums_of(v: u64, table: SoundTable, ready: Ready, rho: f64) -> Sums
    requires width { Width v }
    requires ready_for { ReadyFor (suc v) table.kind table.bytes.now ready }
    requires accepted { T (accepted_temperature widest ready.t) × T (accepted_density widest rho) }
    ensures { result ≡ sums (suc v) table.entry.kind table.entry.bytes.now (exact_of ready.t) (exact_of rho) }
{
    let deltas = powers(v, equation::delta(v, rho), ready.far);
    let rows = ready.rows;
    let mut gs = [NOTHING; 64];
    let mut es = [NOTHING; 64];
    let mut ws = [NOTHING; 64];
    let mut factors = [NOTHING; 64];
    let mut s = equation::no_sums(v);
    for i in 0..table.count() {
        let row = rows[i];
        let term = row.term;
        let like = row.like;
        let same = row.same;
        if like == i {
            let kept = kept_for(v, i, row, gs[same], es[same], deltas[term.c as usize]);
            gs[i] = kept.g;
            es[i] = kept.e;
            ws[i] = kept.w;
            factors[i] = kept.s2;
        }
        let delta = deltas[term.d as usize];
        s = add_row(v, row, delta, es[like], ws[like], factors[like], s);
    }
    s
}
