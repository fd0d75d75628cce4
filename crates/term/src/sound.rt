// The rules of a term's fields and of a table's length, by the kind of table.
ghost use Rattle.std.specs.Prelude.{◌≡◌};
ghost use Rattle.term.specs.Sound.{sound_size, matched, sound_term, sound_length};

use super::Term;

// The rules that both kinds share.
#[tactic(auto, unfolding(crate::specs::Sound::sound_size))]
fn sound_size(term: Term) -> bool
    ensures { result ≡ sound_size term }
{
    0 < term.d && 0 < term.magnitude && term.magnitude <= 100_000_000_000_000_000
}

// A factor stands exactly where there is an exponential.
#[tactic(auto, unfolding(crate::specs::Sound::matched))]
fn factor_matched(term: Term) -> bool
    ensures { result ≡ matched term }
{
    (term.c == 0) == (term.factor == 0)
}

#[tactic(auto, unfolding(crate::specs::Sound::sound_term))]
pub fn sound_term(kind: u64, term: Term) -> bool
    ensures { result ≡ sound_term kind term }
{
    sound_size(term)
        && if kind == 58 {
            factor_matched(term)
        } else {
            term.t <= 24
        }
}

#[tactic(auto, using(crate::proofs::Rules::some_bytes, crate::proofs::Rules::few_bytes, crate::proofs::Rules::most_bytes), unfolding(crate::specs::Sound::sound_length))]
pub fn sound_length(kind: u64, bytes: usize) -> bool
    ensures { result ≡ sound_length kind bytes }
{
    let one = kind::term_bytes(kind);
    one <= bytes && bytes <= 64 * one && bytes % one == 0
}
