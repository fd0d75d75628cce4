// Reads single operations on sheet numbers from standard input and writes each result as a line, for a comparison bit for bit. A record is
// nine words: the width (32 or 53), the operation (0 sum, 1 difference, 2 product, else quotient), the direction (0 down, 1 up), and two
// sheet numbers. A line is the result's three words. What no operation takes, or no width, is answered by zeros. Assumes nothing.
#![tactic(auto)]

ghost use Rattle.sheet.specs.Range.{InRange};

use sheet::Sheet;
use std::io;
use words::Operation;

// A quotient needs a divisor above zero.
fn result(v: u64, operation: Operation, up: bool, a: Sheet, b: Sheet) -> Option<Sheet>
    requires { InRange v a × InRange v b }
{
    match operation {
        Operation::Sum => Some(sheet::sum(v, up, a, b)),
        Operation::Difference => Some(sheet::difference(v, up, a, b)),
        Operation::Product => Some(sheet::product(v, up, a, b)),
        Operation::Quotient if words::above_zero(b) => Some(sheet::quotient(v, up, a, b)),
        Operation::Quotient => None,
    }
}

fn answer(record: [u64; 9]) -> Option<[Sheet; 1]> {
    let [width, operation, direction, ..] = record;
    let v = words::digits_of(width)?;
    let a = words::number(record[3], record[4], record[5]);
    let b = words::number(record[6], record[7], record[8]);
    if !words::usable(v, a) || !words::usable(v, b) {
        return None;
    }
    let operation = Operation::try_from(operation).unwrap_or(Operation::Quotient);
    Some([result(v, operation, direction == 1, a, b)?])
}

// A proved loop has to end, so it makes at most as many turns as no run uses up.
fn main(rt: HostRuntime) -> io::Result<()> {
    let mut input = rt.stdin();
    let mut output = rt.stdout();
    for _ in 0..u64::MAX {
        let Some(record) = words::record(&mut input)? else {
            break;
        };
        words::answer_line(&mut output, answer(record))?;
    }
    Ok(())
}
