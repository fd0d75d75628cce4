// The three sums over the terms of a table of either kind: one pass, from zero, left to right.
ghost use Rattle.std.specs.Prelude.{◌≡◌, suc, ◌<◌, T};
ghost use Rattle.sheet.specs.Range.{Width};
ghost use Rattle.kind.specs.Kind.{widest};
ghost use Rattle.doubles.specs.Double.{exact_of};
ghost use Rattle.doubles.specs.Range.{accepted_temperature, accepted_density};
ghost use Rattle.term.specs.Packed.{term_at, count_terms};
ghost use Rattle.equation.specs.Rules.{addends, plus_each, no_sums, sums};
ghost use Rattle.equation.specs.Ranged.{ReducedIn, AllHeld};

use crate::addends::addends;
use crate::{Reduced, Sums, inputs};
use bracket::Bracket;
use term::SoundTable;

#[tactic(auto, unfolding(crate::specs::Rules::no_sums))]
pub fn no_sums(v: u64) -> Sums
    requires { Width v }
    ensures { result ≡ no_sums (suc v) }
{
    let zero = bracket::whole(v, 0);
    Sums {
        s0: zero,
        s1: zero,
        s2: zero,
    }
}

#[tactic(auto, unfolding(crate::specs::Rules::plus_each))]
fn plus_each(v: u64, s: Sums, a: Sums) -> Sums
    requires { AllHeld v s × AllHeld v a }
    ensures { result ≡ plus_each (suc v) s a }
{
    let s0 = bracket::sum(v, s.s0, a.s0);
    let s1 = bracket::sum(v, s.s1, a.s1);
    let s2 = bracket::sum(v, s.s2, a.s2);
    Sums { s0, s1, s2 }
}

// The sums with the addends of the k-th term.
fn add_term(v: u64, table: SoundTable, k: usize, x: Reduced, s: Sums) -> Sums
    requires k_below { k < count_terms table.kind table.bytes.now }
    requires reduced_in { ReducedIn v x × AllHeld v s }
    ensures { result ≡ plus_each (suc v) s (addends (suc v) (term_at table.entry.kind table.entry.bytes.now k) x.delta x.tau) }
{
    let a = addends(v, table.at(k), x);
    plus_each(v, s, a)
}

pub fn sums_of(v: u64, table: SoundTable, t: f64, rho: f64) -> Sums
    requires { Width v × T (accepted_temperature widest t) × T (accepted_density widest rho) }
    ensures { result ≡ sums (suc v) table.entry.kind table.entry.bytes.now (exact_of t) (exact_of rho) }
{
    let x = Reduced {
        delta: inputs::delta(v, rho),
        tau: inputs::tau(v, t),
    };
    let mut s = no_sums(v);
    for i in 0..table.count() {
        s = add_term(v, table, i, x, s);
    }
    s
}
