// A sum of coefficient times tau^t over some of a table's terms: from zero, in table order.
ghost use Rattle.std.specs.Prelude.{◌≡◌, suc, ◌<◌};
ghost use Rattle.term.specs.Bounds.{Bounds};
ghost use Rattle.term.specs.Packed.{term_at, count_terms};
ghost use Rattle.bracket.specs.Held.{Held};
ghost use Rattle.equation.specs.Ranged.{TauIn};
ghost use Rattle.virial.specs.Sums.{picks, addend, with_term, sum_first};

use crate::Pick;
use bracket::Bracket;
use term::{SoundTable, Term};

// Whether the sum takes the term.
#[tactic(auto, unfolding(crate::specs::Sums::picks))]
fn picks(pick: Pick, term: Term) -> bool
    ensures { result ≡ picks pick term }
{
    match pick {
        Pick::First => term.d == 1,
        Pick::Second => term.d == 2,
        Pick::FirstDamped => term.d == 1 && term.c == 1,
    }
}

fn addend(v: u64, term: Term, tau: Bracket) -> Bracket
    requires { Bounds term × TauIn v tau }
    ensures { result ≡ addend (suc v) term tau }
{
    let coefficient = equation::coefficient(v, term);
    bracket::product(v, coefficient, bracket::power(v, tau, term.t))
}

// The k-th term. The compiler knows its kind, so that of a term which a sum passes over no more than c and d are read.
fn kth<const KIND: u64>(table: SoundTable, k: usize) -> Term
    requires k_below { k < count_terms table.kind table.bytes.now }
    requires kind { table.kind ≡ KIND }
    ensures value { result ≡ term_at table.entry.kind table.entry.bytes.now k }
    ensures bounds { Bounds result }
{
    term::term_at(KIND, table.bytes, k)
}

// The sum with the k-th term's addend, where it is taken.
fn add_term<const KIND: u64>(
    v: u64,
    pick: Pick,
    table: SoundTable,
    k: usize,
    tau: Bracket,
    s: Bracket,
) -> Bracket
    requires k_below { k < count_terms table.kind table.bytes.now }
    requires kind { table.kind ≡ KIND }
    requires tau_in { TauIn v tau × Held v s }
    ensures { result ≡ with_term (suc v) pick (term_at table.entry.kind table.entry.bytes.now k) tau s }
{
    let term = kth::<KIND>(table, k);
    if picks(pick, term) {
        bracket::sum(v, s, addend(v, term, tau))
    } else {
        s
    }
}

pub fn sum_over<const KIND: u64>(v: u64, pick: Pick, table: SoundTable, tau: Bracket) -> Bracket
    requires tau_in { TauIn v tau }
    requires kind { table.kind ≡ KIND }
    ensures { result ≡ sum_first (suc v) pick (term_at table.entry.kind table.entry.bytes.now) tau (count_terms table.entry.kind table.entry.bytes.now) }
{
    let count = table.count();
    let mut s = bracket::whole(v, 0);
    for i in 0..count {
        s = add_term::<KIND>(v, pick, table, i, tau, s);
    }
    s
}
