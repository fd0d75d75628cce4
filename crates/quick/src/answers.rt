// The three answers by the quick pass, at a width and a sound table. Inputs that 3 to 7 refuse go to the plain engine, which refuses them before
// it works anything out.
ghost use Rattle.std.specs.Prelude.{◌≡◌, Ok, ◌&&◌, suc, T};
ghost use Rattle.doubles.specs.Double.{exact_of};
ghost use Rattle.doubles.specs.Range.{accepted_temperature, accepted_pair_temperature, accepted_density, accepted_target, accepted_tolerance};
ghost use Rattle.equation.specs.Rules.{pressure, stiffness, target_gap};
ghost use Rattle.verdict.specs.Reading.{AnswerNumbers, SheetNumbers};
ghost use Rattle.verdict.specs.Steps.{first_failing};
ghost use Rattle.verdict.specs.Rules.{handed_out, on_sides, state_inputs, state_accepted, density_inputs, density_worked, pair_inputs, pair_rest};
ghost use Rattle.verdict.specs.Handed.{Workable, WorkablePair};
ghost use Rattle.verdict.specs.Worked.{phase_of};
ghost use Rattle.quick.specs.Ready.{ReadyFor};

use crate::pass::sums_of;
use crate::ready::{Ready, made_ready};
use crate::unpacked::Unpacked;
use doubles::range;
use verdict::phases::Phase;
use verdict::{
    Ends, Refusal, Rejection, Setting, State, StateSheet, Tolerances, densities, pairs, sheets,
};

// Whether 3 and 4 pass.
fn sheet_passes(kind: u64, state: State) -> bool
    ensures { result ≡ (accepted_temperature kind state.temperature && accepted_density kind state.density) }
{
    range::accepts_temperature(kind, state.temperature)
        && range::accepts_density(kind, state.density)
}

// Whether 3 to 6 pass.
fn density_passes(kind: u64, state: State, target: f64, tolerance: f64) -> bool
    ensures { result ≡ ((accepted_temperature kind state.temperature && accepted_density kind state.density) && (accepted_target kind target && accepted_tolerance tolerance)) }
{
    sheet_passes(kind, state)
        && (range::accepts_target(kind, target) && range::accepts_tolerance(tolerance))
}

// Whether 3, 4, 6 and 7 pass.
fn pair_passes(kind: u64, liquid: State, vapour: f64, tolerances: Tolerances) -> bool
    ensures { result ≡ ((accepted_pair_temperature liquid.temperature && (accepted_density kind liquid.density && accepted_density kind vapour)) && ((accepted_tolerance tolerances.pressure && accepted_tolerance tolerances.gibbs) && on_sides liquid.density vapour)) }
{
    range::accepts_pair_temperature(liquid.temperature)
        && pairs::accepts_densities(kind, liquid.density, vapour)
        && (pairs::accepts_tolerances(tolerances) && pairs::on_sides(liquid.density, vapour))
}

// One phase by the rows that are ready.
fn phase(setting: Setting, ready: Ready, state: State) -> Phase
    requires { Workable setting.table.kind state × (ReadyFor (suc setting.v) setting.table.kind setting.table.bytes.now ready × (ready.t ≡ state.temperature)) }
    ensures { result ≡ phase_of (suc setting.entry.v) setting.entry.table.kind setting.entry.table.bytes.now (exact_of state.temperature) (exact_of state.density) }
{
    let sums = sums_of(setting.v, setting.table, ready, state.density);
    Phase::of(setting.v, state, sums)
}

// One phase by the table's terms.
fn phase_of(unpacked: &Unpacked, state: State) -> Phase
    requires { Workable unpacked.now.setting.table.kind state }
    ensures { let s = unpacked.now.setting in result ≡ phase_of (suc s.v) s.table.kind s.table.bytes.now (exact_of state.temperature) (exact_of state.density) }
{
    let setting = unpacked.setting;
    let ready = made_ready(setting.v, setting.table, &unpacked.list, state.temperature);
    phase(setting, ready, state)
}

// 8, 9 and 11 of the density check.
fn density_worked(
    unpacked: &Unpacked,
    state: State,
    target: f64,
    tolerance: f64,
) -> Result<Ends, Rejection>
    requires { Workable unpacked.now.setting.table.kind state × (T (accepted_target unpacked.now.setting.table.kind target) × T (accepted_tolerance tolerance)) }
    ensures value { let s = unpacked.now.setting in let w = suc s.v in let kind = s.table.kind in let table = s.table.bytes.now in let t = exact_of state.temperature in let rho = exact_of state.density in result ≡ first_failing (density_worked kind (pressure w kind table t rho) (target_gap w kind table t rho (exact_of target)) (stiffness w kind table t rho) tolerance) (Ok (handed_out (pressure w kind table t rho))) }
    ensures answer_numbers { AnswerNumbers result }
{
    let a = phase_of(unpacked, state);
    let setting = unpacked.setting;
    let gap = equation::target_gap_of(setting.v, a.pressure, target);
    densities::worked(setting.table.kind, a.pressure, gap, a.stiffness, tolerance)
}

// 8 to 11 of the pair check: both phases by rows that are made ready once.
fn pair_worked(
    unpacked: &Unpacked,
    liquid: State,
    vapour: f64,
    tolerances: Tolerances,
) -> Result<Ends, Rejection>
    requires { WorkablePair unpacked.now.setting.table.kind liquid vapour tolerances.pressure tolerances.gibbs }
    ensures value { let s = unpacked.now.setting in let w = suc s.v in let kind = s.table.kind in let table = s.table.bytes.now in result ≡ first_failing (pair_rest w kind table liquid.temperature liquid.density vapour tolerances.pressure tolerances.gibbs) (Ok (handed_out (pressure w kind table (exact_of liquid.temperature) (exact_of vapour)))) }
    ensures answer_numbers { AnswerNumbers result }
{
    let setting = unpacked.setting;
    let v = setting.v;
    let t = liquid.temperature;
    let ready = made_ready(v, setting.table, &unpacked.list, t);
    let l = phase(setting, ready, liquid);
    let g = phase(
        setting,
        ready,
        State {
            temperature: t,
            density: vapour,
        },
    );
    let gap = equation::pressure_gap_of(v, l.pressure, g.pressure);
    let gibbs = equation::gibbs_gap_of(v, t, liquid.density, vapour, l.sums, g.sums);
    pairs::judged(setting.table.kind, l, g, gap, gibbs, tolerances)
}

pub fn state_sheet(unpacked: &Unpacked, state: State) -> Result<StateSheet, Refusal>
    ensures value { let s = unpacked.now.setting in let w = suc s.v in let kind = s.table.kind in let table = s.table.bytes.now in result ≡ first_failing (state_inputs w kind table state.temperature state.density) (state_accepted w kind table state.temperature state.density) }
    ensures sheet_numbers { SheetNumbers result }
{
    let setting = unpacked.setting;
    let kind = setting.table.kind;
    if !sheet_passes(kind, state) {
        return sheets::screened(setting, state);
    }
    let a = phase_of(unpacked, state);
    sheets::worked(kind, a.pressure, a.stiffness)
}

pub fn density_check(
    unpacked: &Unpacked,
    state: State,
    target: f64,
    tolerance: f64,
) -> Result<Ends, Rejection>
    ensures value { let s = unpacked.now.setting in let w = suc s.v in let kind = s.table.kind in let table = s.table.bytes.now in result ≡ first_failing (density_inputs w kind table state.temperature state.density target tolerance) (Ok (handed_out (pressure w kind table (exact_of state.temperature) (exact_of state.density)))) }
    ensures answer_numbers { AnswerNumbers result }
{
    let setting = unpacked.setting;
    if !density_passes(setting.table.kind, state, target, tolerance) {
        return densities::screened(setting, state, target, tolerance);
    }
    density_worked(unpacked, state, target, tolerance)
}

pub fn pair_check(
    unpacked: &Unpacked,
    liquid: State,
    vapour: f64,
    tolerances: Tolerances,
) -> Result<Ends, Rejection>
    ensures value { let s = unpacked.now.setting in let w = suc s.v in let kind = s.table.kind in let table = s.table.bytes.now in result ≡ first_failing (pair_inputs w kind table liquid.temperature liquid.density vapour tolerances.pressure tolerances.gibbs) (Ok (handed_out (pressure w kind table (exact_of liquid.temperature) (exact_of vapour)))) }
    ensures answer_numbers { AnswerNumbers result }
{
    let setting = unpacked.setting;
    if !pair_passes(setting.table.kind, liquid, vapour, tolerances) {
        return pairs::screened(setting, liquid, vapour, tolerances);
    }
    pair_worked(unpacked, liquid, vapour, tolerances)
}
