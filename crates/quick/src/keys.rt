// Which terms share what: a key for each term, and the first place at which a key stands.
ghost use Rattle.std.specs.Prelude.{◌≡◌, ◌≤◌, ◌<◌, true, false, length};
ghost use Rattle.term.specs.Bounds.{Bounds};
ghost use Rattle.quick.specs.Keys.{key_of, KeysTo, FirstLike};
ghost use Rattle.quick.specs.Unpacked.{AllBounds};

use term::Term;

// The keys of some terms.
#[derive(Clone, Copy)]
pub struct Keys {
    pub same: [u64; 64],
    pub like: [u64; 64],
}

// By c and factor, which settle the exponential.
#[tactic(auto, unfolding(crate::specs::Keys::key_of))]
fn same_key(term: Term) -> u64
    requires { Bounds term }
    ensures { result ≡ key_of false term }
{
    term.c * 1024 + term.factor
}

// By d too, which with them settles what V is multiplied by.
#[tactic(auto, unfolding(crate::specs::Keys::key_of))]
fn like_key(term: Term) -> u64
    requires { Bounds term }
    ensures { result ≡ key_of true term }
{
    same_key(term) * 32 + term.d
}

pub fn keys_of(terms: &[Term]) -> Keys
    requires { AllBounds terms.now (length terms.now) × (length terms.now ≤ 64) }
    ensures { KeysTo false terms.now (length terms.now) result.same × KeysTo true terms.now (length terms.now) result.like }
{
    let mut keys = Keys {
        same: [0; 64],
        like: [0; 64],
    };
    for (i, term) in terms.iter().enumerate() {
        keys.same[i] = same_key(*term);
        keys.like[i] = like_key(*term);
    }
    keys
}

// The first place that has the key of place k.
pub fn first_like(keys: &[u64], k: usize) -> usize
    requires { k < length keys.now }
    ensures { FirstLike keys.now k result }
{
    let key = keys[k];
    keys[..k]
        .iter()
        .position(|other| *other == key)
        .unwrap_or(k)
}
