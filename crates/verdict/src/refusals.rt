// A test as a step that may refuse, and what a refusal becomes where it is handed on.
ghost use Rattle.std.specs.Prelude.{◌≡◌, true, false, MatchResult};
ghost use Rattle.verdict.specs.declared.Rejection.TheVariants.{Refused};
ghost use Rattle.verdict.specs.Rules.{fault_refusal};

use crate::{Refusal, Rejection};
use term::Fault;

impl Refusal {
    // Refuses unless the test is passed.
    pub fn unless(self, passes: bool) -> Result<(), Refusal>
        ensures { MatchResult result (λ _. passes ≡ true) (λ why. (passes ≡ false) × (why ≡ self)) }
    {
        if passes { Ok(()) } else { Err(self) }
    }
}

impl From<Refusal> for Rejection {
    ghost from_gives = { λ why rejection. rejection ≡ Refused why };

    fn from(why: Refusal) -> Rejection {
        Rejection::Refused(why)
    }
}

impl From<Fault> for Refusal {
    ghost from_gives = { λ fault why. why ≡ fault_refusal fault };

    fn from(fault: Fault) -> Refusal {
        match fault {
            Fault::Length => Refusal::TableLength,
            Fault::Broken(place) => Refusal::BrokenTerm(place),
        }
    }
}
