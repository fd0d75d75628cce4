// The checks with a lent slice of terms, for C: one value of a reply by a choice, as in the crate's root; number 20 is a slice that holds fewer
// terms than the table. The table's terms go to the front of the slice; a table that is refused and a slice too short leave it as it is.
ghost use Rattle.std.specs.Prelude.{◌≡◌};
ghost use Rattle.quick.specs.declared.Question.TheVariants.{Sheet, Density, Pair};
ghost use Rattle.quick.specs.Reading.{ReplyNumbers};
ghost use Rattle.panel.specs.Lent.{reply_chosen, LentCalled};

use quick::{Question, Reply};
use term::Term;
use verdict::{State, Tolerances};

fn sheet_question(t: f64, rho: f64) -> Question
    ensures { result ≡ Sheet (record { temperature = t; density = rho }) }
{
    Question::Sheet(State {
        temperature: t,
        density: rho,
    })
}

fn density_question(t: f64, rho: f64, target: f64, tolerance: f64) -> Question
    ensures { result ≡ Density (record { temperature = t; density = rho }) target tolerance }
{
    let state = State {
        temperature: t,
        density: rho,
    };
    Question::Density(state, target, tolerance)
}

fn pair_question(
    t: f64,
    liquid: f64,
    vapour: f64,
    pressure_tolerance: f64,
    gibbs_tolerance: f64,
) -> Question
    ensures { result ≡ Pair (record { temperature = t; density = liquid }) vapour (record { pressure = pressure_tolerance; gibbs = gibbs_tolerance }) }
{
    let state = State {
        temperature: t,
        density: liquid,
    };
    let tolerances = Tolerances {
        pressure: pressure_tolerance,
        gibbs: gibbs_tolerance,
    };
    Question::Pair(state, vapour, tolerances)
}

// The reply's value at a choice.
pub fn value(reply: Reply, choice: u64) -> u64
    requires { ReplyNumbers reply }
    ensures { result ≡ reply_chosen reply choice }
{
    match reply {
        Reply::Short => {
            let values = [20];
            super::at(&values, choice)
        }
        Reply::Sheet(answer) => {
            let values = reading::of_sheet(answer);
            super::at(&values, choice)
        }
        Reply::Check(answer) => {
            let values = reading::of_check(answer);
            super::at(&values, choice)
        }
    }
}

// The state sheet.
#[unsafe(no_mangle)]
pub extern "C" fn wb_state_lent(
    width: u64,
    kind: u64,
    table: &[u8],
    terms: &mut [Term],
    t: f64,
    rho: f64,
    choice: u64,
) -> u64
    ensures lent_called { LentCalled width kind table.now terms.old terms.new (Sheet (record { temperature = t; density = rho })) choice result }
    ensures table_stays { table.exit.now ≡ table.entry.now }
{
    let question = sheet_question(t, rho);
    let reply = quick::ask(width, kind, table, terms, question);
    value(reply, choice)
}

// The density check.
#[unsafe(no_mangle)]
pub extern "C" fn wb_density_lent(
    width: u64,
    kind: u64,
    table: &[u8],
    terms: &mut [Term],
    t: f64,
    rho: f64,
    target: f64,
    tolerance: f64,
    choice: u64,
) -> u64
    ensures lent_called { LentCalled width kind table.now terms.old terms.new (Density (record { temperature = t; density = rho }) target tolerance) choice result }
    ensures table_stays { table.exit.now ≡ table.entry.now }
{
    let question = density_question(t, rho, target, tolerance);
    let reply = quick::ask(width, kind, table, terms, question);
    value(reply, choice)
}

// The pair check.
#[unsafe(no_mangle)]
pub extern "C" fn wb_pair_lent(
    width: u64,
    kind: u64,
    table: &[u8],
    terms: &mut [Term],
    t: f64,
    liquid: f64,
    vapour: f64,
    pressure_tolerance: f64,
    gibbs_tolerance: f64,
    choice: u64,
) -> u64
    ensures lent_called { LentCalled width kind table.now terms.old terms.new (Pair (record { temperature = t; density = liquid }) vapour (record { pressure = pressure_tolerance; gibbs = gibbs_tolerance })) choice result }
    ensures table_stays { table.exit.now ≡ table.entry.now }
{
    let question = pair_question(t, liquid, vapour, pressure_tolerance, gibbs_tolerance);
    let reply = quick::ask(width, kind, table, terms, question);
    value(reply, choice)
}
