// The nine-byte term of document 01, read where it lies.
ghost use Rattle.std.specs.Prelude.{◌≡◌, ◌+◌, ◌*◌, ◌≤◌, length};
ghost use Rattle.term.specs.Packed.{plain_factor, plain_from};

use super::{Term, reader};

// What nine bytes mean by a factor: 1, or none where there is no exponential.
pub fn plain_factor(c: u64) -> u64
    ensures { result ≡ plain_factor c }
{
    if c == 0 { 0 } else { 100 }
}

// The k-th term.
pub fn plain_at(table: &[u8], k: usize) -> Term
    requires { (9 * k + 9 ≤ length table.now) × (length table.now ≤ 768) }
    ensures { result ≡ plain_from table.now (8 * (9 * k)) }
{
    let first = 8 * (9 * k);
    let c = reader::read_field(table, first, 2);
    Term {
        c,
        factor: plain_factor(c),
        d: reader::read_field(table, first + 2, 4),
        t: reader::read_field(table, first + 6, 5),
        negative: reader::read_field(table, first + 11, 1) == 1,
        magnitude: reader::read_field(table, first + 12, 60),
    }
}
