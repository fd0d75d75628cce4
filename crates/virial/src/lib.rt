// The vapour card of document 02, i: the second and the third virial coefficient from a table of nine-byte terms, and the pressure of their
// polynomial, at 32 or 53 bits. Nothing here writes to the lent table.
#![tactic(auto)]

use bracket::Bracket;
use verdict::Ends;

mod profile; // profile.rt: which temperatures and densities the card takes
mod sums; // sums.rt: sums of coefficient times tau^t over some of a table's terms
mod polynomial; // polynomial.rt: B, C and the pressure of their polynomial
mod cards; // cards.rt: the checks, and what is handed out

pub use cards::vapour_card;

// Which terms a sum runs over: those with d = 1, those with d = 2, and those with d = 1 and c = 1, which an exponential of minus delta damps.
// Stays: no closure, since `picks`, `sum_over` and the rules of B and C in specs/ name the three sums by this choice.
#[derive(Clone, Copy)]
pub enum Pick {
    First,
    Second,
    FirstDamped,
}

// The two virial coefficients, B and C.
#[derive(Clone, Copy)]
pub struct Coefficients {
    pub second: Bracket,
    pub third: Bracket,
}

// What the vapour card hands out: the brackets of B, of C and of the pressure.
#[derive(Clone, Copy)]
pub struct Card {
    pub second: Ends,
    pub third: Ends,
    pub pressure: Ends,
}
