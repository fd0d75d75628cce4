// The term that a row says, and the one row that can say a term.
ghost use Rattle.std.specs.Prelude.{◌≡◌, ◌*◌, ◌^◌, ◌<◌, ◌≤◌};
ghost use Rattle.term.specs.Packed.{plain_factor};
ghost use Rattle.row.specs.Row.{Good, term_of};
ghost use Rattle.row.specs.Saying.{Power, Exact, RowOf};

use super::Row;
use term::Term;

pub fn term_of(row: Row) -> Term
    requires { Good row }
    ensures { result ≡ term_of row }
{
    Term {
        c: row.c,
        factor: term::plain_factor(row.c),
        d: row.d,
        t: row.t,
        negative: row.negative,
        magnitude: scaled(row.ten, row.power),
    }
}

// Ten digits times ten to a power: up to the ninth they fit a word.
fn scaled(ten: u64, power: u64) -> u64
    requires { (ten < 10 ^ 10) × (power ≤ 9) }
    ensures { result ≡ ten * 10 ^ power }
{
    ten * 10_u64.pow(power as u32)
}

// The first power at which ten digits are enough.
fn power_of(magnitude: u64) -> u64
    ensures { Power magnitude result }
{
    for power in 0..7 {
        if magnitude < 10_u64.pow(10 + power) {
            return u64::from(power);
        }
    }
    7
}

// The whole quotient, or 0.
// Stays: 0 is no ten digits, so `good` refuses the row made of it, as the clause `RowOf` of row_of has it; an Option would be turned into a 0 there.
fn exact(magnitude: u64, unit: u64) -> u64
    requires { 0 < unit }
    ensures { Exact magnitude unit result }
{
    if magnitude % unit == 0 {
        magnitude / unit
    } else {
        0
    }
}

// The row is good exactly if the nine-byte term has a spelling.
pub fn row_of(term: Term) -> Row
    requires { term.factor ≡ plain_factor term.c }
    ensures { RowOf term result }
{
    let magnitude = term.magnitude;
    let power = power_of(magnitude);
    let ten = exact(magnitude, scaled(1, power));
    Row {
        c: term.c,
        d: term.d,
        t: term.t,
        negative: term.negative,
        ten,
        power,
    }
}
