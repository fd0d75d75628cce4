// The exponential of minus x over a list of brackets, six words each. Assumes nothing.
use crate::operands::{argument, below};

// The sum of both ends' significands and places over all results, past 64 bits cut off. A width other than 53 bits counts as 32.
#[unsafe(no_mangle)]
pub extern "C" fn marks_exponential(width: u64, list: &[u64]) -> u64 {
    let v = below(width);
    let mut total: u64 = 0;
    let (brackets, _) = list.as_chunks::<6>();
    for b in brackets {
        let r = series::expneg(v, argument(v, [b[0], b[1], b[2]], [b[3], b[4], b[5]]));
        total = total
            .wrapping_add(r.lo.m)
            .wrapping_add(r.lo.e)
            .wrapping_add(r.hi.m)
            .wrapping_add(r.hi.e);
    }
    total
}
