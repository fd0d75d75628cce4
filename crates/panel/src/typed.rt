// The calls on tables typed as text, for C: one value of an answer by a choice, 0 the number, 1 the line or place, 2 the bytes written;
// anything else is 0. What was read or written goes to the front of the lent buffer; a refusal leaves it as it is.
ghost use Rattle.std.specs.Prelude.{◌≡◌};
ghost use Rattle.panel.specs.Typed.{ReadCalled, WriteCalled};

// A text table to packed terms.
#[unsafe(no_mangle)]
pub extern "C" fn wb_read_text(text: &[u8], out: &mut [u8], choice: u64) -> u64
    ensures read_called { ReadCalled text.now out.old out.new choice result }
    ensures text_stays { text.exit.now ≡ text.entry.now }
{
    let read = text::read_values(text::read_text(text, out));
    super::at(&read, choice)
}

// Packed terms to a text table.
#[unsafe(no_mangle)]
pub extern "C" fn wb_write_text(table: &[u8], out: &mut [u8], choice: u64) -> u64
    ensures write_called { WriteCalled table.now out.old out.new choice result }
    ensures table_stays { table.exit.now ≡ table.entry.now }
{
    let written = text::write_values(text::write_text(table, out));
    super::at(&written, choice)
}
