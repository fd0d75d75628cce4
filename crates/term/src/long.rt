// The twelve-byte term of document 02, h, read where it lies.
ghost use Rattle.std.specs.Prelude.{◌≡◌, ◌+◌, ◌*◌, ◌≤◌, length};
ghost use Rattle.term.specs.Long.{long_from, spare_bits};

use super::{Term, reader};

// The k-th term.
// Stays: apart from `plain_at`, since each term has other fields, of other widths, at other places, as the two documents list them.
pub fn long_at(table: &[u8], k: usize) -> Term
    requires { (12 * k + 12 ≤ length table.now) × (length table.now ≤ 768) }
    ensures { result ≡ long_from table.now (8 * (12 * k)) }
{
    let first = 8 * (12 * k);
    Term {
        c: reader::read_field(table, first, 4),
        factor: reader::read_field(table, first + 4, 10),
        d: reader::read_field(table, first + 14, 5),
        t: reader::read_field(table, first + 19, 6),
        negative: reader::read_field(table, first + 25, 1) == 1,
        magnitude: reader::read_field(table, first + 26, 60),
    }
}

// The ten bits behind the k-th term's fields.
pub fn spare_bits(table: &[u8], k: usize) -> u64
    requires { (12 * k + 12 ≤ length table.now) × (length table.now ≤ 768) }
    ensures { result ≡ spare_bits table.now (8 * (12 * k)) }
{
    reader::read_field(table, 8 * (12 * k) + 86, 10)
}
