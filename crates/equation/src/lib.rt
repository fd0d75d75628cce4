// The equation by the step rules of documents 01 and 02 (h) at 32 or 53 bits: the three sums over a table's terms in one pass, and pressure, stiffness,
// Gibbs gap and the gaps of pressure by them. Every function's contract is the rule itself. Nothing here writes to the lent bytes.
// Stays: `Width v`, `GIn v g`, `SumsIn v s` and their like in contracts: no invariant of `Bracket` or `Sums` can name v, which C gives at run time.
#![tactic(auto)]

use bracket::Bracket;

mod inputs; // inputs.rt: delta, tau, coefficient, R times T
mod exponent; // exponent.rt: a term's g and E
mod addends; // addends.rt: one term's addends of the three sums
mod table; // table.rt: the sums over a table
mod states; // states.rt: pressure, stiffness, Gibbs gap and the gaps

pub use addends::{factor_s2, term_w, value};
pub use exponent::{factor_e, scale};
pub use inputs::{coefficient, delta, tau};
pub use states::{
    density_heat, gibbs_gap_of, pressure_gap_of, pressure_of, stiffness_of, target_gap_of,
};
pub use table::{no_sums, sums_of};

// A state as the terms take it.
#[derive(Clone, Copy)]
struct Reduced {
    delta: Bracket,
    tau: Bracket,
}

// The three sums over a table's terms, or one term's addends.
#[derive(Clone, Copy)]
pub struct Sums {
    pub s0: Bracket,
    pub s1: Bracket,
    pub s2: Bracket,
}
