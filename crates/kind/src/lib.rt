// The kinds of table: which there are, and how long their packed terms are. The limits of the inputs by kind stand in specs/Kind.antt too.
// Stays: a kind is a number, which C gives (wb_state); what is promised by kind is promised for every number (accepts_temperature, check_table).
#![tactic(auto)]

ghost use Rattle.std.specs.Prelude.{◌≡◌};
ghost use Rattle.kind.specs.Kind.{sound_kind, term_bytes};

#[tactic(auto, unfolding(crate::specs::Kind::sound_kind))]
pub fn sound_kind(kind: u64) -> bool
    ensures { result ≡ sound_kind kind }
{
    matches!(kind, 38 | 58)
}

#[tactic(auto, unfolding(crate::specs::Kind::by_kind))]
pub fn term_bytes(kind: u64) -> usize
    ensures { result ≡ term_bytes kind }
{
    if kind == 58 { 12 } else { 9 }
}
