// The two series of document 01 at 32 or 53 bits: the exponential of minus x and the logarithm of a density ratio. Every function's contract is
// the rule itself. Assumes nothing.
#![tactic(auto)]

mod exponential; // exponential.rt: the exponential of minus x
mod logarithm; // logarithm.rt: the series of the logarithm, and ln 2
mod ratio; // ratio.rt: the logarithm of a density ratio

pub use exponential::expneg;
pub use logarithm::{ln_series, ln_two};
pub use ratio::ln_ratio;
