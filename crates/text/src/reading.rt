// Reading: the rows of a text, packed one behind the other.
ghost use Rattle.std.specs.Prelude.{◌≡◌};
ghost use Rattle.text.specs.Reads.{Checks, ReadSays};

use super::ReadFault;

// The rows of a text: the bytes of their terms, or the line of the first bad one. Each row's term goes behind those before it, into the
// table of the function's caller.
fn read_rows(text: &[u8], table: &mut [u8; 576]) -> Result<usize, usize>
    ensures { Checks text.now table.old table.new result }
{
    let mut at: usize = 0;
    let mut count: usize = 0;
    // Stays: a turn goes on by the length of the row it read, so the place is no index that a range counts.
    while at < text.len() {
        if count == 64 {
            return Err(65);
        }
        let Some((row, next)) = row::read_row(text, at) else {
            return Err(count + 1);
        };
        term::put_term(table, 9 * count, row::term_of(row));
        at = next;
        count += 1;
    }
    if count == 0 { Err(1) } else { Ok(9 * count) }
}

// Answers how many bytes were written.
pub fn read_text(text: &[u8], out: &mut [u8]) -> Result<usize, ReadFault>
    ensures read_says { ReadSays text.now out.old out.new result }
    ensures text_stays { text.exit.now ≡ text.entry.now }
{
    let mut table = [0u8; 576];
    let n = read_rows(text, &mut table).map_err(ReadFault::BadRow)?;
    lent::deliver(&table[..n], out).ok_or(ReadFault::NoRoom)
}
