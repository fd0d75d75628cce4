// Loops for the benchmarks, which C calls. No answer of the library goes through here. Assumes nothing: any words are taken.
#![tactic(auto)]

mod operands; // operands.rt: sheet numbers and brackets from words
mod exponentials; // exponentials.rt: the exponential of minus x
mod singles; // singles.rt: the four operations
