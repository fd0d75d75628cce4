// The pair check: all numbers but 5 and 12. Liquid and vapour have one temperature, from the triple point on.
ghost use Rattle.std.specs.Prelude.{◌≡◌, Ok, ◌&&◌, suc, T};
ghost use Rattle.std.specs.Float.Ieee.Scale.{finite};
ghost use Rattle.doubles.specs.Double.{exact_of};
ghost use Rattle.doubles.specs.Range.{accepted_density, accepted_tolerance};
ghost use Rattle.equation.specs.Rules.{pressure};
ghost use Rattle.verdict.specs.Reading.{AnswerNumbers};
ghost use Rattle.verdict.specs.Steps.{first_failing};
ghost use Rattle.verdict.specs.Rules.{handed_out, under_ceiling, on_sides, balance_worked, pair_worked, pair_rest, pair_inputs};
ghost use Rattle.verdict.specs.Statement.{PairStated};
ghost use Rattle.verdict.specs.Handed.{Handy, WorkablePair};

use crate::handed::{gap_passes, handed_out, pushes_back, under_ceiling};
use crate::phases::{Phase, phase_of};
use crate::{Ends, Refusal, Rejection, Setting, State, Tolerances};
use bracket::Bracket;
use doubles::range;

pub fn accepts_densities(kind: u64, liquid: f64, vapour: f64) -> bool
    ensures { result ≡ (accepted_density kind liquid && accepted_density kind vapour) }
{
    range::accepts_density(kind, liquid) && range::accepts_density(kind, vapour)
}

pub fn accepts_tolerances(tolerances: Tolerances) -> bool
    ensures { result ≡ (accepted_tolerance tolerances.pressure && accepted_tolerance tolerances.gibbs) }
{
    range::accepts_tolerance(tolerances.pressure) && range::accepts_tolerance(tolerances.gibbs)
}

#[tactic(auto, unfolding(crate::specs::Rules::on_sides))]
pub fn on_sides(liquid: f64, vapour: f64) -> bool
    requires { T (finite liquid) × T (finite vapour) }
    ensures { result ≡ on_sides liquid vapour }
{
    range::above_critical(liquid) && range::below_critical(vapour)
}

fn both_under_ceiling(kind: u64, p: Bracket, q: Bracket) -> bool
    requires { Handy p × Handy q }
    ensures { result ≡ (under_ceiling kind p && under_ceiling kind q) }
{
    under_ceiling(kind, p) && under_ceiling(kind, q)
}

// 10 and 11, by the brackets of the Gibbs gap and of the two stiffnesses; accepted with the vapour's pressure q.
fn balanced(
    gibbs: Bracket,
    l: Bracket,
    v: Bracket,
    gibbs_tolerance: f64,
    q: Bracket,
) -> Result<Ends, Rejection>
    requires handy { (Handy gibbs × Handy l) × (Handy v × Handy q) }
    requires tolerance_finite { T (finite gibbs_tolerance) }
    ensures value { result ≡ first_failing (balance_worked gibbs l v gibbs_tolerance) (Ok (handed_out q)) }
    ensures answer_numbers { AnswerNumbers result }
{
    if !gap_passes(gibbs, gibbs_tolerance) {
        return Err(Rejection::GibbsGap(handed_out(gibbs)));
    }
    if !pushes_back(l) {
        return Err(Rejection::Stiffness(handed_out(l)));
    }
    if !pushes_back(v) {
        return Err(Rejection::Stiffness(handed_out(v)));
    }
    Ok(handed_out(q))
}

// 8, 21 and 9, by the liquid, the vapour and the gap of their pressures, and what follows.
pub fn judged(
    kind: u64,
    l: Phase,
    g: Phase,
    gap: Bracket,
    gibbs: Bracket,
    tolerances: Tolerances,
) -> Result<Ends, Rejection>
    requires { (((Handy l.pressure × Handy g.pressure) × (Handy gap × Handy gibbs)) × (Handy l.stiffness × Handy g.stiffness)) × (T (finite tolerances.pressure) × T (finite tolerances.gibbs)) }
    ensures value { result ≡ first_failing (pair_worked kind l.pressure g.pressure gap tolerances.pressure (balance_worked gibbs l.stiffness g.stiffness tolerances.gibbs)) (Ok (handed_out g.pressure)) }
    ensures answer_numbers { AnswerNumbers result }
{
    let p = l.pressure;
    let q = g.pressure;
    Refusal::Ceiling.unless(both_under_ceiling(kind, p, q))?;
    if !pushes_back(q) {
        return Err(Rejection::VapourPressure(handed_out(q)));
    }
    if !gap_passes(gap, tolerances.pressure) {
        return Err(Rejection::PressureGap(handed_out(gap)));
    }
    balanced(gibbs, l.stiffness, g.stiffness, tolerances.gibbs, q)
}

// Each phase is worked out once, in one pass over the table.
fn worked(
    setting: Setting,
    liquid: State,
    vapour: f64,
    tolerances: Tolerances,
) -> Result<Ends, Rejection>
    requires { WorkablePair setting.table.kind liquid vapour tolerances.pressure tolerances.gibbs }
    ensures value { result ≡ first_failing (pair_rest (suc setting.entry.v) setting.entry.table.kind setting.entry.table.bytes.now liquid.temperature liquid.density vapour tolerances.pressure tolerances.gibbs) (Ok (handed_out (pressure (suc setting.entry.v) setting.entry.table.kind setting.entry.table.bytes.now (exact_of liquid.temperature) (exact_of vapour)))) }
    ensures answer_numbers { AnswerNumbers result }
{
    let v = setting.v;
    let t = liquid.temperature;
    let l = phase_of(v, setting.table, liquid);
    let g = phase_of(
        v,
        setting.table,
        State {
            temperature: t,
            density: vapour,
        },
    );
    let gap = equation::pressure_gap_of(v, l.pressure, g.pressure);
    let gibbs = equation::gibbs_gap_of(v, t, liquid.density, vapour, l.sums, g.sums);
    judged(setting.table.kind, l, g, gap, gibbs, tolerances)
}

// 3, 4, 6 and 7, and what follows.
pub fn screened(
    setting: Setting,
    liquid: State,
    vapour: f64,
    tolerances: Tolerances,
) -> Result<Ends, Rejection>
    ensures value { result ≡ first_failing (pair_inputs (suc setting.entry.v) setting.entry.table.kind setting.entry.table.bytes.now liquid.temperature liquid.density vapour tolerances.pressure tolerances.gibbs) (Ok (handed_out (pressure (suc setting.entry.v) setting.entry.table.kind setting.entry.table.bytes.now (exact_of liquid.temperature) (exact_of vapour)))) }
    ensures answer_numbers { AnswerNumbers result }
{
    let kind = setting.table.kind;
    Refusal::Temperature.unless(range::accepts_pair_temperature(liquid.temperature))?;
    Refusal::Density.unless(accepts_densities(kind, liquid.density, vapour))?;
    Refusal::Tolerance.unless(accepts_tolerances(tolerances))?;
    Refusal::Sides.unless(on_sides(liquid.density, vapour))?;
    worked(setting, liquid, vapour, tolerances)
}

pub fn pair_check(
    width: u64,
    kind: u64,
    table: &[u8],
    liquid: State,
    vapour: f64,
    tolerances: Tolerances,
) -> Result<Ends, Rejection>
    ensures pair_stated { PairStated width kind table.now liquid.temperature liquid.density vapour tolerances.pressure tolerances.gibbs result }
    ensures answer_numbers { AnswerNumbers result }
    ensures table_stays { table.exit.now ≡ table.entry.now }
{
    let setting = Setting::check(width, kind, table)?;
    screened(setting, liquid, vapour, tolerances)
}
