// An answer as whole numbers: document 02's number, the place, and the bytes written.
ghost use Rattle.std.specs.Prelude.{◌≡◌};
ghost use Rattle.convert.specs.Values.{converted_values};

use super::ConvertFault;
use term::Fault;

// Stays: C takes an answer as numbers by a choice; the clauses of wb_lengthen and wb_shorten hold them (`ConvertCalled`).
#[tactic(auto, unfolding(crate::specs::Values::converted_values))]
pub fn converted_values(answer: Result<usize, ConvertFault>) -> [u64; 3]
    ensures { result ≡ converted_values answer }
{
    match answer {
        Ok(n) => [0, 0, n as u64],
        Err(ConvertFault::Unsound(Fault::Length)) => [1, 0, 0],
        Err(ConvertFault::Unsound(Fault::Broken(place))) => [2, place as u64, 0],
        Err(ConvertFault::NoOldForm(place)) => [22, place as u64, 0],
        Err(ConvertFault::NoRoom) => [18, 0, 0],
    }
}
