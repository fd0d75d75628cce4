// The quick engine (document 02, e): the same answers as `verdict`, with the table unpacked once into a slice of terms that the caller lends,
// and each different exponential, each power and each coefficient taken once. Number 20 is a slice that holds fewer terms than the table.
// Nothing here writes to the lent table.
#![tactic(auto)]

use verdict::{Ends, Refusal, Rejection, State, StateSheet, Tolerances};

mod unpacked; // unpacked.rt: a table's terms by value
mod powers; // powers.rt: the powers of a bracket
mod keys; // keys.rt: which terms share what
mod ready; // ready.rt: what a table gives at one temperature
mod kept; // kept.rt: what terms share at a density
mod pass; // pass.rt: the sums at one density
mod answers; // answers.rt: the three answers by the pass
mod replies; // replies.rt: what is replied once the slice is looked at
mod own; // own.rt: the calls with a slice of their own
mod slice; // slice.rt: the slice of terms, lent by the caller or this crate's own

pub use own::{density_check, pair_check, state_sheet};
pub use slice::ask;

// What is asked: the state sheet; the density check with its target and tolerance; the pair check with its vapour and tolerances.
// Stays: an enum and no trait or closures, since `Stated` (specs/Lent.antt), `lent-settled` (proofs/Same.antt) and `LentCalled` (panel) speak of any question.
#[derive(Clone, Copy)]
pub enum Question {
    Sheet(State),
    Density(State, f64, f64),
    Pair(State, f64, Tolerances),
}

// What is replied: that the slice is too short, or what the plain engine answers.
// Stays: `Short` among the replies, since `reply_number` and `twenty` number it with them.
#[derive(Clone, Copy)]
pub enum Reply {
    Short,
    Sheet(Result<StateSheet, Refusal>),
    Check(Result<Ends, Rejection>),
}
