// The line for one proposal.
ghost use Rattle.std.specs.Prelude.{◌≡◌};
ghost use Rattle.line.specs.Line.{Within, held};
ghost use Rattle.bench.specs.Lines.{proposal_line, cut_line};

use line::Line;
use verdict::{State, Tolerances};

pub fn answer_line(width: u64, kind: u64, table: &[u8], count: u64, proposal: &[u8; 40]) -> Line
    ensures value { result ≡ held (proposal_line width kind table.now count proposal.now) }
    ensures within { Within result }
{
    let p = line::read_proposal(proposal);
    let liquid = State {
        temperature: p.temperature,
        density: p.liquid,
    };
    let tolerances = Tolerances {
        pressure: p.pressure_tolerance,
        gibbs: p.gibbs_tolerance,
    };
    let answer = quick::pair_check(width, kind, table, liquid, p.vapour, tolerances);
    let values = reading::of_check(answer);
    line::of_answer(count, values[0], values[1], values[2], values[3])
}

// A proposal of fewer than forty bytes.
pub fn cut_line(count: u64) -> Line
    ensures value { result ≡ held (cut_line count) }
    ensures within { Within result }
{
    line::of_answer(count, 12, 0, 0, 0)
}
