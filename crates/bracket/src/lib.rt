// Brackets of two sheet numbers of 32 or 53 bits (01, "Sheet numbers and brackets"; 02 d): given values, the four operations, powers, the
// last addend of a series once more, and an upper end so many sheet numbers on. A function is told v, one less than the count of bits. Every
// function's contract is the rule itself. Assumes nothing.
// Stays: `Held v b` in contracts: an invariant of `Bracket` cannot name v, which C gives at run time.
#![tactic(auto)]

mod values; // values.rt: given values and whole numbers
mod picked; // picked.rt: one end of a bracket
mod sums; // sums.rt: sum, difference, the last addend once more, the upper end further on
mod products; // products.rt: product by the signs of the ends
mod quotients; // quotients.rt: quotient by a divisor above zero, or by a small whole number
mod powers; // powers.rt: powers by recursion

pub use powers::power;
pub use products::product;
pub use quotients::{quotient, share};
use sheet::Sheet;
pub use sums::{add_last, difference, stretched, sum};
pub use values::{given, given_ratio, whole};

#[derive(Clone, Copy)]
pub struct Bracket {
    pub lo: Sheet,
    pub hi: Sheet,
}
