// One phase, worked out in a single pass over the table: its sums, its pressure and its stiffness.
ghost use Rattle.std.specs.Prelude.{◌≡◌, suc};
ghost use Rattle.sheet.specs.Range.{Width};
ghost use Rattle.doubles.specs.Double.{exact_of};
ghost use Rattle.verdict.specs.Worked.{phase_of};
ghost use Rattle.verdict.specs.Handed.{Workable};

use crate::State;
use bracket::Bracket;
use equation::Sums;
use term::SoundTable;

#[derive(Clone, Copy)]
pub struct Phase {
    pub sums: Sums,
    pub pressure: Bracket,
    pub stiffness: Bracket,
}

impl Phase {
    ghost use Rattle.std.specs.Prelude.{T};
    ghost use Rattle.kind.specs.Kind.{widest};
    ghost use Rattle.doubles.specs.Range.{accepted_temperature, accepted_density};
    ghost use Rattle.equation.specs.Rules.{pressure_of, stiffness_of};
    ghost use Rattle.equation.specs.Ranged.{SumsIn};

    // By the sums at a state.
    pub fn of(v: u64, state: State, s: Sums) -> Phase
        requires { (T (accepted_temperature widest state.temperature) × T (accepted_density widest state.density)) × SumsIn v s }
        ensures { result ≡ record { sums = s; pressure = pressure_of (suc v) (exact_of state.temperature) (exact_of state.density) s; stiffness = stiffness_of (suc v) (exact_of state.temperature) s } }
    {
        let t = state.temperature;
        let pressure = equation::pressure_of(v, t, state.density, s);
        let stiffness = equation::stiffness_of(v, t, s);
        Phase {
            sums: s,
            pressure,
            stiffness,
        }
    }
}

pub fn phase_of(v: u64, table: SoundTable, state: State) -> Phase
    requires { Width v × Workable table.kind state }
    ensures { result ≡ phase_of (suc v) table.entry.kind table.entry.bytes.now (exact_of state.temperature) (exact_of state.density) }
{
    let t = state.temperature;
    let sums = equation::sums_of(v, table, t, state.density);
    Phase::of(v, state, sums)
}
