// The vapour card: the checks 19 and 1 to 4, then the brackets of B, of C and of the pressure.
ghost use Rattle.std.specs.Prelude.{◌≡◌, Ok, suc};
ghost use Rattle.verdict.specs.Handed.{Handy};
ghost use Rattle.verdict.specs.Rules.{handed_out};
ghost use Rattle.verdict.specs.Steps.{first_failing};
ghost use Rattle.virial.specs.Answers.{card_inputs, card_accepted, CardStated};
ghost use Rattle.virial.specs.Reading.{CardNumbers};

use crate::Card;
use crate::polynomial::{coefficients_of, pressure_of};
use crate::profile::{takes_density, takes_temperature};
use bracket::Bracket;
use verdict::{Refusal, Setting, State};

// The ends of the three brackets.
fn worked(second: Bracket, third: Bracket, pressure: Bracket) -> Card
    requires { Handy second × Handy third × Handy pressure }
    ensures value { result ≡ record { second = handed_out second; third = handed_out third; pressure = handed_out pressure } }
    ensures card_numbers { CardNumbers (Ok result) }
{
    Card {
        second: verdict::handed_out(second),
        third: verdict::handed_out(third),
        pressure: verdict::handed_out(pressure),
    }
}

// 3 and 4, and what follows.
fn screened(setting: Setting, state: State) -> Result<Card, Refusal>
    requires { setting.table.kind ≡ 38 }
    ensures value { result ≡ first_failing (card_inputs state.temperature state.density) (card_accepted (suc setting.entry.v) setting.entry.table.bytes.now state.temperature state.density) }
    ensures card_numbers { CardNumbers result }
{
    let t = state.temperature;
    let rho = state.density;
    Refusal::Temperature.unless(takes_temperature(t))?;
    Refusal::Density.unless(takes_density(rho))?;
    let x = coefficients_of(setting, t);
    let pressure = pressure_of(setting.v, t, rho, x);
    Ok(worked(x.second, x.third, pressure))
}

pub fn vapour_card(width: u64, table: &[u8], state: State) -> Result<Card, Refusal>
    ensures card_stated { CardStated width table.now state.temperature state.density result }
    ensures card_numbers { CardNumbers result }
    ensures table_stays { table.exit.now ≡ table.entry.now }
{
    let setting = Setting::check(width, 38, table)?;
    screened(setting, state)
}
