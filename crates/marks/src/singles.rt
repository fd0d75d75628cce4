// The four operations on single ends, over a list of pairs of operands, six words each. Assumes nothing.
ghost use Rattle.sheet.specs.Range.{Width};

use crate::operands::{below, divisor, operand};
use sheet::Sheet;

// Stays: crate words has the same enum for its programs, and reads input; what C links here has no input.
#[derive(Clone, Copy)]
enum Operation {
    Sum,
    Difference,
    Product,
    Quotient,
}

impl From<u64> for Operation {
    fn from(number: u64) -> Operation {
        match number {
            0 => Operation::Sum,
            1 => Operation::Difference,
            2 => Operation::Product,
            _ => Operation::Quotient,
        }
    }
}

fn result(v: u64, operation: Operation, up: bool, a: [u64; 3], b: [u64; 3]) -> Sheet
    requires { Width v }
{
    let x = operand(v, a);
    match operation {
        Operation::Sum => sheet::sum(v, up, x, operand(v, b)),
        Operation::Difference => sheet::difference(v, up, x, operand(v, b)),
        Operation::Product => sheet::product(v, up, x, operand(v, b)),
        Operation::Quotient => sheet::quotient(v, up, x, divisor(v, b)),
    }
}

// One operation (0 sum, 1 difference, 2 product, else quotient) at a width of 32 or 53 bits (any other counts as 32), up or (for 0) down, on
// every pair of the list: the sum of the results' significands and places, past 64 bits cut off.
#[unsafe(no_mangle)]
pub extern "C" fn marks_single(width: u64, operation: u64, up: u64, list: &[u64]) -> u64 {
    let v = below(width);
    let operation = Operation::from(operation);
    let mut total: u64 = 0;
    let (pairs, _) = list.as_chunks::<6>();
    for p in pairs {
        let r = result(
            v,
            operation,
            up != 0,
            [p[0], p[1], p[2]],
            [p[3], p[4], p[5]],
        );
        total = total.wrapping_add(r.m).wrapping_add(r.e);
    }
    total
}
