// The three calls with a slice of 64 terms of their own, which no sound table overruns: the plain engine's statements, word for word.
ghost use Rattle.std.specs.Prelude.{◌≡◌};
ghost use Rattle.verdict.specs.Reading.{AnswerNumbers, SheetNumbers};
ghost use Rattle.verdict.specs.Statement.{StateStated, DensityStated, PairStated};
ghost use Rattle.quick.specs.declared.Reply.TheVariants.{Sheet, Check};
ghost use Rattle.quick.specs.Reading.{IsSheet, IsCheck};

use crate::slice::ask_own;
use crate::{Question, Reply};
use verdict::{Ends, Refusal, Rejection, State, StateSheet, Tolerances};

// The answer in a reply to the state sheet's question.
fn sheet_in(reply: Reply) -> Result<StateSheet, Refusal>
    requires { IsSheet reply }
    ensures { reply ≡ Sheet result }
{
    match reply {
        Reply::Sheet(answer) => answer,
        _ => unreachable!(),
    }
}

// The answer in a reply to a check's.
fn check_in(reply: Reply) -> Result<Ends, Rejection>
    requires { IsCheck reply }
    ensures { reply ≡ Check result }
{
    match reply {
        Reply::Check(answer) => answer,
        _ => unreachable!(),
    }
}

pub fn state_sheet(width: u64, kind: u64, table: &[u8], state: State) -> Result<StateSheet, Refusal>
    ensures state_stated { StateStated width kind table.now state.temperature state.density result }
    ensures sheet_numbers { SheetNumbers result }
    ensures table_stays { table.exit.now ≡ table.entry.now }
{
    sheet_in(ask_own(width, kind, table, Question::Sheet(state)))
}

pub fn density_check(
    width: u64,
    kind: u64,
    table: &[u8],
    state: State,
    target: f64,
    tolerance: f64,
) -> Result<Ends, Rejection>
    ensures density_stated { DensityStated width kind table.now state.temperature state.density target tolerance result }
    ensures answer_numbers { AnswerNumbers result }
    ensures table_stays { table.exit.now ≡ table.entry.now }
{
    let question = Question::Density(state, target, tolerance);
    check_in(ask_own(width, kind, table, question))
}

pub fn pair_check(
    width: u64,
    kind: u64,
    table: &[u8],
    liquid: State,
    vapour: f64,
    tolerances: Tolerances,
) -> Result<Ends, Rejection>
    ensures pair_stated { PairStated width kind table.now liquid.temperature liquid.density vapour tolerances.pressure tolerances.gibbs result }
    ensures answer_numbers { AnswerNumbers result }
    ensures table_stays { table.exit.now ≡ table.entry.now }
{
    let question = Question::Pair(liquid, vapour, tolerances);
    check_in(ask_own(width, kind, table, question))
}
