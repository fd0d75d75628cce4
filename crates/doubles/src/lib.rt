// f64s in and out, by their exact values: ranges and comparisons, exact parts and given values, ends handed out, and the whole power
// of two in a ratio of densities. Each contract is an equation with a rule of specs/. Assumes nothing.
#![tactic(auto)]

pub mod decode;
pub mod encode;
pub mod range;
pub mod ratio;
