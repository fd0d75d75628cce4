// What a refusal without ends says.
ghost use Rattle.std.specs.Prelude.{◌≡◌};
ghost use Rattle.verdict.specs.Reading.{refusal_number, refusal_place};

use verdict::Refusal;

pub fn number(why: Refusal) -> u64
    ensures { result ≡ refusal_number why }
{
    match why {
        Refusal::Width => 19,
        Refusal::Kind => 29,
        Refusal::TableLength => 1,
        Refusal::BrokenTerm(_) => 2,
        Refusal::Temperature => 3,
        Refusal::Density => 4,
        Refusal::Target => 5,
        Refusal::Tolerance => 6,
        Refusal::Sides => 7,
        Refusal::Ceiling => 8,
    }
}

pub fn place(why: Refusal) -> u64
    ensures { result ≡ refusal_place why }
{
    match why {
        Refusal::BrokenTerm(at) => at as u64,
        _ => 0,
    }
}
