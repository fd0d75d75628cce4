// The packed terms of both kinds of table (document 01, "The packed term"; document 02, h): their fields, the check of a table of them, and a
// term packed. A kind other than 58 is treated as 38. Nothing here writes to a lent table.
#![tactic(auto)]

ghost use Rattle.std.specs.Prelude.{◌≡◌, ◌+◌, ◌*◌, ◌<◌, ◌≤◌, length, MatchOption};
ghost use Rattle.kind.specs.Kind.{term_bytes};
ghost use Rattle.term.specs.Packed.{term_at, spare_at, count_terms};
ghost use Rattle.term.specs.Sound.{sound_at, first_broken, table_answer};

pub mod bits;
mod checked;
mod long;
mod packer;
mod plain;
pub mod reader;
mod sound;

pub use checked::SoundTable;
pub use packer::{put_long, put_term};
pub use plain::plain_factor;
pub use sound::{sound_length, sound_term};

// A term as its fields say: the exponential's factor is in hundredths, and the coefficient is `magnitude` units of ten to the minus 16, below
// zero if `negative`. C lends slices of them.
#[repr(C)]
#[derive(Clone, Copy)]
pub struct Term {
    pub c: u64,
    pub factor: u64,
    pub d: u64,
    pub t: u64,
    pub negative: bool,
    pub magnitude: u64,
}

// What the check of a table may find wrong: its length, or the term at a place, counted from 1.
#[derive(Clone, Copy)]
pub enum Fault {
    Length,
    Broken(usize),
}

// The k-th term of a table, field by field.
pub fn term_at(kind: u64, table: &[u8], k: usize) -> Term
    requires { (term_bytes kind * k + term_bytes kind ≤ length table.now) × (length table.now ≤ 768) }
    ensures { (result ≡ term_at kind table.now k) × (table.exit.now ≡ table.entry.now) }
{
    if kind == 58 {
        long::long_at(table, k)
    } else {
        plain::plain_at(table, k)
    }
}

pub fn count_terms(kind: u64, table: &[u8]) -> usize
    ensures { result ≡ count_terms kind table.now }
{
    table.len() / kind::term_bytes(kind)
}

// The spare bits of the k-th term.
fn spare_at(kind: u64, table: &[u8], k: usize) -> u64
    requires { (term_bytes kind * k + term_bytes kind ≤ length table.now) × (length table.now ≤ 768) }
    ensures { result ≡ spare_at kind table.now k }
{
    if kind == 58 {
        long::spare_bits(table, k)
    } else {
        0
    }
}

// Whether the k-th term keeps the rules.
#[tactic(auto, unfolding(crate::specs::Sound::sound_at))]
fn sound_at(kind: u64, table: &[u8], k: usize) -> bool
    requires { (term_bytes kind * k + term_bytes kind ≤ length table.now) × (length table.now ≤ 768) }
    ensures { result ≡ sound_at kind table.now k }
{
    sound_term(kind, term_at(kind, table, k)) && spare_at(kind, table, k) == 0
}

// The place of the first broken term, counted from 1: the loop over the terms yields it by break.
fn first_broken(kind: u64, table: &[u8]) -> Option<usize>
    requires { length table.now ≤ 768 }
    ensures { MatchOption result (first_broken kind table.now ≡ 0) (λ place. (first_broken kind table.now ≡ place) × (0 < place)) }
{
    'terms: {
        for k in 0..count_terms(kind, table) {
            if !sound_at(kind, table, k) {
                break 'terms Some(k + 1);
            }
        }
        None
    }
}

// The whole table: its length, then its terms. Answers their count.
pub fn check_table(kind: u64, table: &[u8]) -> Result<usize, Fault>
    ensures { (result ≡ table_answer kind table.now) × (table.exit.now ≡ table.entry.now) }
{
    if !sound_length(kind, table.len()) {
        return Err(Fault::Length);
    }
    match first_broken(kind, table) {
        None => Ok(count_terms(kind, table)),
        Some(place) => Err(Fault::Broken(place)),
    }
}
