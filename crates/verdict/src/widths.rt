// The widths of sheet numbers.
// Stays: a width is a number, which C gives (wb_state); state_sheet and both checks take any number and settle it.
ghost use Rattle.std.specs.Prelude.{◌≡◌};
ghost use Rattle.verdict.specs.Rules.{sound_width};

#[tactic(auto, unfolding(crate::specs::Rules::sound_width))]
pub fn sound_width(width: u64) -> bool
    ensures { result ≡ sound_width width }
{
    width == 32 || width == 53
}
