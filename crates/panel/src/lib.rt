// The calls of the bench panel, for C: one value of an answer at a width of 32 or 53 bits and for a kind of table, 38 or 58, by a choice.
// The table's bytes are lent, and only read.
// 0 the number, 1 the place, 2 to 5 the ends in order as f64 bits; anything that the answer does not have is 0.
// `slice` has the same checks with a lent slice of terms, `card` the vapour card, `typed` the calls on tables typed as text, `converted` those
// that turn one kind of table into the other.
// Stays: numbers for width, kind and choice, a value a call, parameters one by one, and a call for each question: the C interface.
#![tactic(auto)]

mod card;
mod converted;
mod slice;
mod typed;

ghost use Rattle.std.specs.Prelude.{◌≡◌};
ghost use Rattle.verdict.specs.Rules.{state_answer, density_answer, pair_answer};
ghost use Rattle.panel.specs.Chosen.{chosen, sheet_chosen};

use reading::at;
use verdict::{State, Tolerances};

// The state sheet: 2 and 3 the ends of pressure, 4 and 5 those of stiffness.
#[unsafe(no_mangle)]
pub extern "C" fn wb_state(
    width: u64,
    kind: u64,
    table: &[u8],
    t: f64,
    rho: f64,
    choice: u64,
) -> u64
    ensures value { result ≡ sheet_chosen (state_answer width kind table.now t rho) choice }
    ensures table_stays { table.exit.now ≡ table.entry.now }
{
    let state = State {
        temperature: t,
        density: rho,
    };
    let values = reading::of_sheet(quick::state_sheet(width, kind, table, state));
    at(&values, choice)
}

// The density check.
#[unsafe(no_mangle)]
pub extern "C" fn wb_density(
    width: u64,
    kind: u64,
    table: &[u8],
    t: f64,
    rho: f64,
    target: f64,
    tolerance: f64,
    choice: u64,
) -> u64
    ensures value { result ≡ chosen (density_answer width kind table.now t rho target tolerance) choice }
    ensures table_stays { table.exit.now ≡ table.entry.now }
{
    let state = State {
        temperature: t,
        density: rho,
    };
    let answer = quick::density_check(width, kind, table, state, target, tolerance);
    let values = reading::of_check(answer);
    at(&values, choice)
}

// The pair check.
#[unsafe(no_mangle)]
pub extern "C" fn wb_pair(
    width: u64,
    kind: u64,
    table: &[u8],
    t: f64,
    liquid: f64,
    vapour: f64,
    pressure_tolerance: f64,
    gibbs_tolerance: f64,
    choice: u64,
) -> u64
    ensures value { result ≡ chosen (pair_answer width kind table.now t liquid vapour pressure_tolerance gibbs_tolerance) choice }
    ensures table_stays { table.exit.now ≡ table.entry.now }
{
    let state = State {
        temperature: t,
        density: liquid,
    };
    let tolerances = Tolerances {
        pressure: pressure_tolerance,
        gibbs: gibbs_tolerance,
    };
    let answer = quick::pair_check(width, kind, table, state, vapour, tolerances);
    let values = reading::of_check(answer);
    at(&values, choice)
}
