// A row of a text table (document 02, c): read at a place of a text, written into a line, and turned into a term and back.
// A reader that refuses byte by byte would have an exit for each slip. This one guesses the fields, spells them as the writer does, and
// holds that against the text: a row stands there exactly if the two are the same.
#![tactic(auto)]

mod reader;
mod said;
mod writer;

ghost use Rattle.std.specs.Prelude.{◌≡◌, ◌≤◌, length};
ghost use Rattle.row.specs.Row.{good_row};
ghost use Rattle.row.specs.Standing.{Reads};

pub use said::{row_of, term_of};
pub use writer::put_row;

// A row as it is typed: the coefficient is 0.D times ten to the `power` less 6, where D is the ten digits `ten`.
#[derive(Clone, Copy)]
pub struct Row {
    pub c: u64,
    pub d: u64,
    pub t: u64,
    pub negative: bool,
    pub ten: u64,
    pub power: u64,
}

// Whether the fields keep the rules.
#[tactic(auto, unfolding(crate::specs::Row::good_row))]
pub fn good(row: Row) -> bool
    ensures { result ≡ good_row row }
{
    row.c < 4
        && 0 < row.d
        && row.d < 16
        && row.t <= 24
        && 1_000_000_000 <= row.ten
        && row.ten < 10_000_000_000
        && row.power <= 7
}

// The row at a place and the place behind it, if a row stands there. The place is far below the largest number: a text table has at most
// 1,664 bytes.
pub fn read_row(text: &[u8], at: usize) -> Option<(Row, usize)>
    requires { (at ≤ 4096) × (at ≤ length text.now) }
    ensures { Reads text.now at result }
{
    let row = reader::guess(text, at);
    if good(row) {
        let mut line = [0u8; 32];
        let len = writer::put_row(&mut line, row);
        if reader::stands(text, at, &line[..len]) {
            return Some((row, at + len));
        }
    }
    None
}
