// An answer's values as whole numbers: the number, the place, and each end as its f64's bits. A refusal has no ends, which read as zeros.
#![tactic(auto)]

mod refusal; // refusal.rt: a refusal's number and its place

ghost use Rattle.std.specs.Prelude.{◌≡◌, get_or};
ghost use Rattle.verdict.specs.Reading.{Numbers, AnswerNumbers, SheetNumbers};
ghost use Rattle.virial.specs.Reading.{CardNumbers};
ghost use Rattle.reading.specs.Values.{end_values, check_values, sheet_values, card_values};

use verdict::{Ends, Refusal, Rejection, StateSheet};
use virial::Card;

// The density check and the pair check: number, place, lower end, upper end.
pub fn of_check(answer: Result<Ends, Rejection>) -> [u64; 4]
    requires { AnswerNumbers answer }
    ensures { result ≡ check_values answer }
{
    match answer {
        Ok(ends) => with_ends(0, ends),
        Err(Rejection::Refused(why)) => [refusal::number(why), refusal::place(why), 0, 0],
        Err(Rejection::VapourPressure(ends)) => with_ends(21, ends),
        Err(Rejection::PressureGap(ends)) => with_ends(9, ends),
        Err(Rejection::GibbsGap(ends)) => with_ends(10, ends),
        Err(Rejection::Stiffness(ends)) => with_ends(11, ends),
    }
}

// A number with no place and two ends.
fn with_ends(number: u64, ends: Ends) -> [u64; 4]
    requires { Numbers ends }
    ensures { result ≡ end_values number ends }
{
    [number, 0, ends.lower.to_bits(), ends.upper.to_bits()]
}

// The state sheet: number, place, the two ends of pressure, the two ends of stiffness.
pub fn of_sheet(answer: Result<StateSheet, Refusal>) -> [u64; 6]
    requires { SheetNumbers answer }
    ensures { result ≡ sheet_values answer }
{
    match answer {
        Ok(sheet) => [
            0,
            0,
            sheet.pressure.lower.to_bits(),
            sheet.pressure.upper.to_bits(),
            sheet.stiffness.lower.to_bits(),
            sheet.stiffness.upper.to_bits(),
        ],
        Err(why) => [refusal::number(why), refusal::place(why), 0, 0, 0, 0],
    }
}

// The vapour card: number, place, the two ends of B, the two of C, the two of the pressure.
pub fn of_card(answer: Result<Card, Refusal>) -> [u64; 8]
    requires { CardNumbers answer }
    ensures { result ≡ card_values answer }
{
    match answer {
        Ok(card) => [
            0,
            0,
            card.second.lower.to_bits(),
            card.second.upper.to_bits(),
            card.third.lower.to_bits(),
            card.third.upper.to_bits(),
            card.pressure.lower.to_bits(),
            card.pressure.upper.to_bits(),
        ],
        Err(why) => [refusal::number(why), refusal::place(why), 0, 0, 0, 0, 0, 0],
    }
}

// The value at a choice, or 0 where there is none.
pub fn at(values: &[u64], choice: u64) -> u64
    ensures { result ≡ get_or values.now choice 0 }
{
    values.get(choice as usize).copied().unwrap_or(0)
}
