// A sound table: lent bytes that the check let through, with their kind. Who is handed one needs no further check. Assumes nothing.
ghost use Rattle.std.specs.Prelude.{◌≡◌, true, ◌<◌, MatchResult};
ghost use Rattle.term.specs.Bounds.{Bounds};
ghost use Rattle.term.specs.Packed.{count_terms, term_at};
ghost use Rattle.term.specs.Sound.{sound_table};

use super::{Fault, Term};

#[derive(Clone, Copy)]
pub struct SoundTable<'a> {
    pub kind: u64,
    pub bytes: &'a [u8],
    pub ghost sound: { sound_table kind bytes.now ≡ true },
}

impl<'a> SoundTable<'a> {
    ghost use Rattle.term.specs.Sound.{table_answer};
    ghost use Rattle.std.specs.Prelude.{Err};

    // The bytes, if the check finds no fault.
    pub fn check(kind: u64, bytes: &'a [u8]) -> Result<Self, Fault>
        ensures { MatchResult result (λ table. (table.kind ≡ kind) × (table.bytes ≡ bytes.entry)) (λ fault. table_answer kind bytes.now ≡ Err fault) }
    {
        super::check_table(kind, bytes)?;
        Ok(SoundTable { kind, bytes })
    }

    // How many terms there are.
    pub fn count(self) -> usize
        ensures { result ≡ count_terms self.entry.kind self.entry.bytes.now }
    {
        super::count_terms(self.kind, self.bytes)
    }

    // The k-th term.
    pub fn at(self, k: usize) -> Term
        requires { k < count_terms self.kind self.bytes.now }
        ensures value { result ≡ term_at self.entry.kind self.entry.bytes.now k }
        ensures bounds { Bounds result }
    {
        super::term_at(self.kind, self.bytes, k)
    }
}
