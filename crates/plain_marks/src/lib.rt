// The plain engine's state sheet and pair check for the benchmarks, which C calls beside the panel's. No answer of the library goes through
// here. They are a crate of their own, because the compiler puts a function into its caller where it has only one: beside the loops of
// `marks` the exponential would be a function by itself, and both would be slower. The table's bytes are lent, and only read.
// A choice is the panel's: 0 the number, 1 the place, 2 to 5 the ends in order as f64 bits; anything that the answer does not have is 0.
// Stays: numbers, and parameters one by one: C calls both.
#![tactic(auto)]

ghost use Rattle.std.specs.Prelude.{◌≡◌, get_or};
ghost use Rattle.verdict.specs.Rules.{state_answer, pair_answer};
ghost use Rattle.reading.specs.Values.{check_values, sheet_values};

use reading::at;
use verdict::{State, Tolerances};

#[unsafe(no_mangle)]
pub extern "C" fn mark_plain_state(
    width: u64,
    kind: u64,
    table: &[u8],
    t: f64,
    rho: f64,
    choice: u64,
) -> u64
    ensures value { result ≡ get_or (sheet_values (state_answer width kind table.now t rho)) choice 0 }
    ensures table_stays { table.exit.now ≡ table.entry.now }
{
    let state = State {
        temperature: t,
        density: rho,
    };
    let values = reading::of_sheet(verdict::state_sheet(width, kind, table, state));
    at(&values, choice)
}

#[unsafe(no_mangle)]
pub extern "C" fn mark_plain_pair(
    width: u64,
    kind: u64,
    table: &[u8],
    t: f64,
    liquid: f64,
    vapour: f64,
    pressure_tolerance: f64,
    gibbs_tolerance: f64,
    choice: u64,
) -> u64
    ensures value { result ≡ get_or (check_values (pair_answer width kind table.now t liquid vapour pressure_tolerance gibbs_tolerance)) choice 0 }
    ensures table_stays { table.exit.now ≡ table.entry.now }
{
    let state = State {
        temperature: t,
        density: liquid,
    };
    let tolerances = Tolerances {
        pressure: pressure_tolerance,
        gibbs: gibbs_tolerance,
    };
    let answer = verdict::pair_check(width, kind, table, state, vapour, tolerances);
    let values = reading::of_check(answer);
    at(&values, choice)
}
