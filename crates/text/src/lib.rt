// Tables typed as text (document 02, c): rows read into packed terms, and packed terms written as rows, into lent buffers.
// Both calls make their answer in an array of their own and deliver it at the very end, so that a refusal has written no byte.
// Nothing has to be checked before a call.
#![tactic(auto)]

mod reading;
mod values;
mod writing;

pub use reading::read_text;
pub use term::Fault;
pub use values::{read_values, write_values};
pub use writing::write_text;

// Why a text is not read: 16 with the line of the first bad row; or 18, no room.
#[derive(Clone, Copy)]
pub enum ReadFault {
    BadRow(usize),
    NoRoom,
}

// Why a table is not written as text: 1, or 2 with the place of the first broken term, as the table's check finds; 17 with the place of the
// first term that has no spelling; or 18, no room.
#[derive(Clone, Copy)]
pub enum WriteFault {
    Unsound(Fault),
    NoSpelling(usize),
    TooLong,
}
