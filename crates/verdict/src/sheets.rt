// The state sheet: the checks 19, 29, 1 to 4 and 8, then the brackets of pressure and of stiffness.
ghost use Rattle.std.specs.Prelude.{◌≡◌, Ok, suc};
ghost use Rattle.verdict.specs.Reading.{SheetNumbers};
ghost use Rattle.verdict.specs.Steps.{first_failing};
ghost use Rattle.verdict.specs.Rules.{handed_out, state_worked, state_inputs, state_accepted};
ghost use Rattle.verdict.specs.Statement.{StateStated};
ghost use Rattle.verdict.specs.Handed.{Handy};

use crate::handed::{handed_out, under_ceiling};
use crate::phases::phase_of;
use crate::{Refusal, Setting, State, StateSheet};
use bracket::Bracket;
use doubles::range;

// 8, then the ends.
pub fn worked(kind: u64, pressure: Bracket, stiffness: Bracket) -> Result<StateSheet, Refusal>
    requires { Handy pressure × Handy stiffness }
    ensures value { result ≡ first_failing (state_worked kind pressure) (Ok (record { pressure = handed_out pressure; stiffness = handed_out stiffness })) }
    ensures sheet_numbers { SheetNumbers result }
{
    if !under_ceiling(kind, pressure) {
        return Err(Refusal::Ceiling);
    }
    Ok(StateSheet {
        pressure: handed_out(pressure),
        stiffness: handed_out(stiffness),
    })
}

// 3 and 4, and what follows.
pub fn screened(setting: Setting, state: State) -> Result<StateSheet, Refusal>
    ensures value { result ≡ first_failing (state_inputs (suc setting.entry.v) setting.entry.table.kind setting.entry.table.bytes.now state.temperature state.density) (state_accepted (suc setting.entry.v) setting.entry.table.kind setting.entry.table.bytes.now state.temperature state.density) }
    ensures sheet_numbers { SheetNumbers result }
{
    let kind = setting.table.kind;
    Refusal::Temperature.unless(range::accepts_temperature(kind, state.temperature))?;
    Refusal::Density.unless(range::accepts_density(kind, state.density))?;
    let phase = phase_of(setting.v, setting.table, state);
    worked(kind, phase.pressure, phase.stiffness)
}

pub fn state_sheet(width: u64, kind: u64, table: &[u8], state: State) -> Result<StateSheet, Refusal>
    ensures state_stated { StateStated width kind table.now state.temperature state.density result }
    ensures sheet_numbers { SheetNumbers result }
    ensures table_stays { table.exit.now ≡ table.entry.now }
{
    let setting = Setting::check(width, kind, table)?;
    screened(setting, state)
}
