// Sheet numbers and brackets of v + 1 bits from words: sign, significand, place. What is no sheet number in range counts as zero, and as a
// divisor as one. Assumes nothing.
ghost use Rattle.std.specs.Prelude.{IfSome};
ghost use Rattle.exact.specs.Fraction.{nat, ◌≺◌};
ghost use Rattle.sheet.specs.Number.{value};
ghost use Rattle.sheet.specs.Range.{InRange, Width};
ghost use Rattle.bracket.specs.Rules.{ends};
ghost use Rattle.bracket.specs.Held.{Held};
ghost use Rattle.series.specs.Terms.{Factor};
ghost use Rattle.marks.specs.Argument.{Placed, Argument};

use bracket::Bracket;
use sheet::Sheet;

// One less than a width of 32 or 53 bits; any other counts as 32.
pub fn below(width: u64) -> u64
    ensures { Width result }
{
    if width == 53 { 52 } else { 31 }
}

// The number of v + 1 digits at a place between two others.
fn placed(v: u64, neg: bool, m: u64, e: u64, least: u64, most: u64) -> Option<Sheet>
    requires { Width v }
    ensures { IfSome result (Placed v neg least most) }
{
    if m >> v != 1 || e < least || most < e {
        return None;
    }
    Some(Sheet { neg, m, e })
}

fn one(v: u64) -> Sheet
    requires { Width v }
    ensures { Argument v result }
{
    Sheet {
        neg: false,
        m: 1 << v,
        e: 262144 - v,
    }
}

pub fn operand(v: u64, words: [u64; 3]) -> Sheet
    requires { Width v }
    ensures { InRange v result }
{
    placed(v, words[0] != 0, words[1], words[2], 182144, 342144).unwrap_or(Sheet::ZERO)
}

// Its sign is left out.
pub fn divisor(v: u64, words: [u64; 3]) -> Sheet
    requires { Width v }
    ensures { InRange v result × (nat 0 ≺ value result) }
{
    placed(v, false, words[1], words[2], 182144, 342144).unwrap_or(one(v))
}

// An end of the exponential's argument; what is no number from 2^-57 to 64 counts as one.
fn end(v: u64, words: [u64; 3]) -> Sheet
    requires { Width v }
    ensures { Argument v result }
{
    placed(v, false, words[1], words[2], 262087 - v, 262149 - v).unwrap_or(one(v))
}

// Two ends, or the lower one twice where they are not in order.
pub fn argument(v: u64, lo: [u64; 3], hi: [u64; 3]) -> Bracket
    requires { Width v }
    ensures { Held v result × Factor (ends result) }
{
    let lo = end(v, lo);
    let hi = end(v, hi);
    if sheet::at_most(lo, hi) {
        Bracket { lo, hi }
    } else {
        Bracket { lo, hi: lo }
    }
}
