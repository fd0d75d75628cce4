// What the bench program writes and reads, as bytes: the line for one answer, the numbers of one proposal, and the words for the width and the kind.
// Nothing that this crate offers has a `requires`, and nothing here reads or writes a file.
#![tactic(auto)]

mod digits;
mod proposal;
mod word;

ghost use Rattle.std.specs.Prelude.{◌≡◌, take};
ghost use Rattle.line.specs.Line.{Within, held, line_of};

use digits::{decimal, hex};
pub use proposal::{Proposal, read_proposal};
pub use word::{kind_of, width_of};

// A line's bytes stand at the front; the others are 0. No line of five u64s is longer than 97 bytes.
// Stays: a buffer with its length, since there is no heap; `held` (specs/Line.antt) is a line for any text, so `Within` is no ghost field.
#[derive(Clone, Copy)]
pub struct Line {
    pub bytes: [u8; 97],
    pub len: usize,
}

impl Line {
    // The bytes that stand there.
    pub fn text(&self) -> &[u8]
        ensures { result.now ≡ take self.now.len self.now.bytes }
    {
        self.bytes.get(..self.len).unwrap_or(&self.bytes)
    }
}

// The line for a proposal's count, the answer's number and place, and its two ends as f64 bits.
pub fn of_answer(count: u64, number: u64, place: u64, lower: u64, upper: u64) -> Line
    ensures value { result ≡ held (line_of count number place lower upper) }
    ensures within { Within result }
{
    let mut bytes = [0u8; 97];
    let a = decimal(&mut bytes, 0, count);
    let b = decimal(&mut bytes, a, number);
    let c = decimal(&mut bytes, b, place);
    let d = hex(&mut bytes, c, lower, b' ');
    let len = hex(&mut bytes, d, upper, b'\n');
    Line { bytes, len }
}
