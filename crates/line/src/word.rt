// The width and the kind that words of the command line name.
ghost use Rattle.std.specs.Prelude.{◌≡◌};
ghost use Rattle.line.specs.Word.{spells, named, width_of, kind_of};

fn spells(word: &[u8], a: u8, b: u8) -> bool
    ensures { result ≡ spells word.now a b }
{
    word.len() == 2 && word[0] == a && word[1] == b
}

// One of two numbers by its digits, and 0 for any other word.
#[tactic(auto, unfolding(crate::specs::Word::named))]
fn named(word: &[u8], a: u8, b: u8, first: u64, c: u8, d: u8, second: u64) -> u64
    ensures { result ≡ named word.now a b first c d second }
{
    if spells(word, a, b) {
        first
    } else if spells(word, c, d) {
        second
    } else {
        0
    }
}

// 0, which is no width, for any word but 32 and 53.
// Stays: a number and no Option, as `width_of` (specs/Word.antt) says and `width-none` (proofs/Words.antt) proves; the same for the kind.
pub fn width_of(word: &[u8]) -> u64
    ensures { result ≡ width_of word.now }
{
    named(word, b'3', b'2', 32, b'5', b'3', 53)
}

// 0, which is no kind, for any word but 38 and 58.
pub fn kind_of(word: &[u8]) -> u64
    ensures { result ≡ kind_of word.now }
{
    named(word, b'3', b'8', 38, b'5', b'8', 58)
}
