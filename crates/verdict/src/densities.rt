// The density check: all numbers but 7, 10, 12 and 21.
ghost use Rattle.std.specs.Prelude.{◌≡◌, Ok, suc, T};
ghost use Rattle.std.specs.Float.Ieee.Scale.{finite};
ghost use Rattle.doubles.specs.Double.{exact_of};
ghost use Rattle.equation.specs.Rules.{pressure};
ghost use Rattle.verdict.specs.Reading.{AnswerNumbers};
ghost use Rattle.verdict.specs.Steps.{first_failing};
ghost use Rattle.verdict.specs.Rules.{handed_out, density_worked, density_inputs};
ghost use Rattle.verdict.specs.Statement.{DensityStated};
ghost use Rattle.verdict.specs.Handed.{Handy};

use crate::handed::{gap_passes, handed_out, pushes_back, under_ceiling};
use crate::phases::phase_of;
use crate::{Ends, Refusal, Rejection, Setting, State};
use bracket::Bracket;
use doubles::range;

// 8, 9 and 11, by the brackets of pressure, of pressure less target, and of stiffness.
pub fn worked(
    kind: u64,
    p: Bracket,
    gap: Bracket,
    s: Bracket,
    tolerance: f64,
) -> Result<Ends, Rejection>
    requires { (Handy p × Handy gap) × (Handy s × T (finite tolerance)) }
    ensures value { result ≡ first_failing (density_worked kind p gap s tolerance) (Ok (handed_out p)) }
    ensures answer_numbers { AnswerNumbers result }
{
    Refusal::Ceiling.unless(under_ceiling(kind, p))?;
    if !gap_passes(gap, tolerance) {
        return Err(Rejection::PressureGap(handed_out(gap)));
    }
    if !pushes_back(s) {
        return Err(Rejection::Stiffness(handed_out(s)));
    }
    Ok(handed_out(p))
}

// 3 to 6, and what follows.
pub fn screened(
    setting: Setting,
    state: State,
    target: f64,
    tolerance: f64,
) -> Result<Ends, Rejection>
    ensures value { result ≡ first_failing (density_inputs (suc setting.entry.v) setting.entry.table.kind setting.entry.table.bytes.now state.temperature state.density target tolerance) (Ok (handed_out (pressure (suc setting.entry.v) setting.entry.table.kind setting.entry.table.bytes.now (exact_of state.temperature) (exact_of state.density)))) }
    ensures answer_numbers { AnswerNumbers result }
{
    let kind = setting.table.kind;
    Refusal::Temperature.unless(range::accepts_temperature(kind, state.temperature))?;
    Refusal::Density.unless(range::accepts_density(kind, state.density))?;
    Refusal::Target.unless(range::accepts_target(kind, target))?;
    Refusal::Tolerance.unless(range::accepts_tolerance(tolerance))?;
    let phase = phase_of(setting.v, setting.table, state);
    let gap = equation::target_gap_of(setting.v, phase.pressure, target);
    worked(kind, phase.pressure, gap, phase.stiffness, tolerance)
}

pub fn density_check(
    width: u64,
    kind: u64,
    table: &[u8],
    state: State,
    target: f64,
    tolerance: f64,
) -> Result<Ends, Rejection>
    ensures density_stated { DensityStated width kind table.now state.temperature state.density target tolerance result }
    ensures answer_numbers { AnswerNumbers result }
    ensures table_stays { table.exit.now ≡ table.entry.now }
{
    let setting = Setting::check(width, kind, table)?;
    screened(setting, state, target, tolerance)
}
