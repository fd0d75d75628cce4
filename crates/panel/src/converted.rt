// The calls that turn a table of one kind into the other, for C: one value of an answer by a choice, 0 the number, 1 the place, 2 the bytes
// written; anything else is 0. The other table goes to the front of the lent buffer; a refusal leaves it as it is.
ghost use Rattle.std.specs.Prelude.{◌≡◌, get_or};
ghost use Rattle.convert.specs.Values.{converted_values};
ghost use Rattle.panel.specs.Converted.{ConvertCalled};

use convert::ConvertFault;

// The answer's value at a choice.
fn chosen(answer: Result<usize, ConvertFault>, choice: u64) -> u64
    ensures { result ≡ get_or (converted_values answer) choice 0 }
{
    let values = convert::converted_values(answer);
    super::at(&values, choice)
}

// Nine-byte terms to twelve.
#[unsafe(no_mangle)]
pub extern "C" fn wb_lengthen(table: &[u8], out: &mut [u8], choice: u64) -> u64
    ensures convert_called { ConvertCalled 38 58 table.now out.old out.new choice result }
    ensures table_stays { table.exit.now ≡ table.entry.now }
{
    chosen(convert::lengthen(table, out), choice)
}

// Twelve-byte terms to nine.
#[unsafe(no_mangle)]
pub extern "C" fn wb_shorten(table: &[u8], out: &mut [u8], choice: u64) -> u64
    ensures convert_called { ConvertCalled 58 38 table.now out.old out.new choice result }
    ensures table_stays { table.exit.now ≡ table.entry.now }
{
    chosen(convert::shorten(table, out), choice)
}
