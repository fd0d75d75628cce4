// What a table gives at one temperature, made ready once for every density: each term with its coefficient, its power of tau, and the first
// places of the terms that share its exponential and its weights.
ghost use Rattle.std.specs.Prelude.{◌≡◌, suc, ◌≤◌, T, length, get_or};
ghost use Rattle.sheet.specs.Range.{Width};
ghost use Rattle.kind.specs.Kind.{widest};
ghost use Rattle.doubles.specs.Range.{accepted_temperature};
ghost use Rattle.term.specs.Bounds.{Bounds};
ghost use Rattle.equation.specs.Rules.{coefficient};
ghost use Rattle.quick.specs.Powers.{nothing};
ghost use Rattle.quick.specs.Unpacked.{blank, AllBounds, Holds};
ghost use Rattle.quick.specs.Ready.{Farther, Reaches, RowsTo, ReadyFor};

use crate::keys::{first_like, keys_of};
use crate::powers::{NOTHING, powers};
use crate::unpacked::BLANK;
use bracket::Bracket;
use term::{SoundTable, Term};

// A term, its coefficient and tau to the power t; `same` is the first place with its c and factor, `like` the first with its d too.
#[derive(Clone, Copy)]
pub struct Row {
    pub term: Term,
    pub coefficient: Bracket,
    pub tau: Bracket,
    pub same: usize,
    pub like: usize,
}

// The greatest t of some terms, and the greatest d or c.
#[derive(Clone, Copy)]
pub struct Reach {
    pub t: u64,
    pub d: u64,
}

// The rows at a temperature, and the highest power of delta that they need.
// Stays: 64 places each, here and where terms, keys and powers are listed, since the library has no heap.
#[derive(Clone, Copy)]
pub struct Ready {
    pub t: f64,
    pub rows: [Row; 64],
    pub far: u64,
}

// A row where a list has none.
const NO_ROW: Row = Row {
    term: BLANK,
    coefficient: NOTHING,
    tau: NOTHING,
    same: 0,
    like: 0,
};

fn farther(reach: Reach, term: Term) -> Reach
    ensures { Farther reach term result }
{
    Reach {
        t: reach.t.max(term.t),
        d: reach.d.max(term.d).max(term.c),
    }
}

fn reach_of(terms: &[Term]) -> Reach
    requires { AllBounds terms.now (length terms.now) }
    ensures { Reaches terms.now (length terms.now) result }
{
    let mut reach = Reach { t: 0, d: 0 };
    for term in terms {
        reach = farther(reach, *term);
    }
    reach
}

fn row_of(v: u64, term: Term, tau: Bracket, same: usize, like: usize) -> Row
    requires { Width v }
    ensures { result ≡ record { term = term; coefficient = coefficient (suc v) term; tau = tau; same = same; like = like } }
{
    let coefficient = equation::coefficient(v, term);
    Row {
        term,
        coefficient,
        tau,
        same,
        like,
    }
}

// The rows of some terms, by the powers of tau.
fn rows_of(v: u64, terms: &[Term], taus: &[Bracket; 64]) -> [Row; 64]
    requires { Width v × AllBounds terms.now (length terms.now) × (length terms.now ≤ 64) }
    ensures { RowsTo (suc v) (λ k. get_or terms.now k blank) (λ t. get_or taus.now t nothing) result (length terms.now) }
{
    let keys = keys_of(terms);
    let mut rows = [NO_ROW; 64];
    for (i, term) in terms.iter().enumerate() {
        let t = term.t as usize;
        let same = first_like(&keys.same, i);
        let like = first_like(&keys.like, i);
        rows[i] = row_of(v, *term, taus[t], same, like);
    }
    rows
}

// All of it for a table's terms at a temperature.
pub fn made_ready(v: u64, table: SoundTable, list: &[Term; 64], t: f64) -> Ready
    requires width { Width v }
    requires holds { Holds table.kind table.bytes.now list.now }
    requires t_accepted { T (accepted_temperature widest t) }
    ensures { ReadyFor (suc v) table.entry.kind table.entry.bytes.now result × (result.t ≡ t) }
{
    let terms = &list[..table.count()];
    let far = reach_of(terms);
    let taus = powers(v, equation::tau(v, t), far.t);
    let rows = rows_of(v, terms, &taus);
    Ready {
        t,
        rows,
        far: far.d,
    }
}
