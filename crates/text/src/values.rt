// An answer as whole numbers: document 02's number, the line or place, and the bytes written.
ghost use Rattle.std.specs.Prelude.{◌≡◌};
ghost use Rattle.text.specs.Values.{read_values, write_values};

use super::{Fault, ReadFault, WriteFault};

// Stays: C takes an answer as numbers by a choice; the clauses of wb_read_text and wb_write_text hold them (`ReadCalled`, `WriteCalled`).
#[tactic(auto, unfolding(crate::specs::Values::read_values))]
pub fn read_values(answer: Result<usize, ReadFault>) -> [u64; 3]
    ensures { result ≡ read_values answer }
{
    match answer {
        Ok(n) => [0, 0, n as u64],
        Err(ReadFault::BadRow(line)) => [16, line as u64, 0],
        Err(ReadFault::NoRoom) => [18, 0, 0],
    }
}

#[tactic(auto, unfolding(crate::specs::Values::write_values))]
pub fn write_values(answer: Result<usize, WriteFault>) -> [u64; 3]
    ensures { result ≡ write_values answer }
{
    match answer {
        Ok(n) => [0, 0, n as u64],
        Err(WriteFault::Unsound(Fault::Length)) => [1, 0, 0],
        Err(WriteFault::Unsound(Fault::Broken(place))) => [2, place as u64, 0],
        Err(WriteFault::NoSpelling(place)) => [17, place as u64, 0],
        Err(WriteFault::TooLong) => [18, 0, 0],
    }
}
