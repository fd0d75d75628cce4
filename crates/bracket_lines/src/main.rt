// Reads operations on brackets from standard input and writes each result as a line, for a comparison bit for bit. A record is 15 words:
// the width (32 or 53), the operation (0 sum, 1 difference, 2 product, 3 quotient, else power), the power's exponent, and two brackets of
// two sheet numbers. A line is the result's six words. What no operation takes, or no width, is answered by zeros. Assumes nothing.
#![tactic(auto)]

ghost use Rattle.std.specs.Prelude.{◌≡◌, true};
ghost use Rattle.sheet.specs.Range.{Width};
ghost use Rattle.bracket.specs.Held.{Held};

use bracket::Bracket;
use sheet::Sheet;
use std::io;
use words::Operation;

// Whether the operations take the bracket.
fn held(v: u64, b: Bracket) -> bool
    requires { Width v }
    ensures { result ≡ true → Held v b }
{
    words::usable(v, b.lo) && words::usable(v, b.hi) && sheet::at_most(b.lo, b.hi)
}

// A power needs every lower power in range.
fn raised(v: u64, b: Bracket, n: u64) -> Option<Bracket>
    requires { Held v b }
{
    let mut p = bracket::whole(v, 1);
    for k in 0..n {
        if !held(v, p) {
            return None;
        }
        p = bracket::product(v, p, b);
    }
    Some(bracket::power(v, b, n))
}

// A quotient needs a divisor whose lower end is above zero.
fn result(v: u64, operation: Operation, a: Bracket, b: Bracket) -> Option<Bracket>
    requires { Held v a × Held v b }
{
    match operation {
        Operation::Sum => Some(bracket::sum(v, a, b)),
        Operation::Difference => Some(bracket::difference(v, a, b)),
        Operation::Product => Some(bracket::product(v, a, b)),
        Operation::Quotient if words::above_zero(b.lo) => Some(bracket::quotient(v, a, b)),
        Operation::Quotient => None,
    }
}

fn answer(record: [u64; 15]) -> Option<Bracket> {
    let [width, operation, exponent, ..] = record;
    let v = words::digits_of(width)?;
    let a = Bracket {
        lo: words::number(record[3], record[4], record[5]),
        hi: words::number(record[6], record[7], record[8]),
    };
    let b = Bracket {
        lo: words::number(record[9], record[10], record[11]),
        hi: words::number(record[12], record[13], record[14]),
    };
    if !held(v, a) || !held(v, b) {
        return None;
    }
    match Operation::try_from(operation) {
        Ok(operation) => result(v, operation, a, b),
        Err(_) => raised(v, a, exponent),
    }
}

// A proved loop has to end, so it makes at most as many turns as no run uses up.
fn main(rt: HostRuntime) -> io::Result<()> {
    let mut input = rt.stdin();
    let mut output = rt.stdout();
    for _ in 0..u64::MAX {
        let Some(record) = words::record(&mut input)? else {
            break;
        };
        let ends = answer(record).map(|b| [b.lo, b.hi]);
        words::answer_line(&mut output, ends)?;
    }
    Ok(())
}
