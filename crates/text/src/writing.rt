// Writing: the rows of a table's terms, spelled one behind the other.
ghost use Rattle.std.specs.Prelude.{◌≡◌, ◌≤◌, length};
ghost use Rattle.text.specs.Writes.{SpellsOut, WriteSays};

use super::WriteFault;

// The text of a table's terms: its length, or the place of the first term that has no spelling. Each term's row goes behind those before it,
// into the text of the function's caller. 64 rows of at most 26 bytes are 1,664.
fn spell_terms(table: &[u8], text: &mut [u8; 1664]) -> Result<usize, usize>
    requires { length table.now ≤ 576 }
    ensures { SpellsOut table.now text.old text.new result }
{
    let mut at: usize = 0;
    for i in 0..term::count_terms(38, table) {
        let row = row::row_of(term::term_at(38, table, i));
        if !row::good(row) {
            return Err(i + 1);
        }
        let mut line = [0u8; 32];
        let len = row::put_row(&mut line, row);
        at = lent::put_bytes(text, at, &line[..len]);
    }
    Ok(at)
}

// Answers how many bytes were written.
pub fn write_text(table: &[u8], out: &mut [u8]) -> Result<usize, WriteFault>
    ensures write_says { WriteSays table.now out.old out.new result }
    ensures table_stays { table.exit.now ≡ table.entry.now }
{
    term::check_table(38, table).map_err(WriteFault::Unsound)?;
    let mut text = [0u8; 1664];
    let n = spell_terms(table, &mut text).map_err(WriteFault::NoSpelling)?;
    lent::deliver(&text[..n], out).ok_or(WriteFault::TooLong)
}
