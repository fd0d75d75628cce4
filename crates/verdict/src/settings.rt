// A width and a table that the first checks let through. Who is handed one needs to ask neither again.
ghost use Rattle.std.specs.Prelude.{◌≡◌, suc, true};
ghost use Rattle.kind.specs.Kind.{sound_kind};
ghost use Rattle.verdict.specs.Rules.{sound_width};

use crate::Refusal;
use crate::widths::sound_width;
use term::SoundTable;

// The width less 1, as the layers below take it, and a sound table.
#[derive(Clone, Copy)]
pub struct Setting<'a> {
    pub v: u64,
    pub table: SoundTable<'a>,
    pub ghost width_sound: { sound_width (suc v) ≡ true },
    pub ghost kind_sound: { sound_kind table.kind ≡ true },
}

impl<'a> Setting<'a> {
    ghost use Rattle.std.specs.Prelude.{Some, None, MatchResult};
    ghost use Rattle.verdict.specs.Rules.{first_refusal};

    // The checks 19, 29, 1 and 2.
    pub fn check(width: u64, kind: u64, table: &'a [u8]) -> Result<Self, Refusal>
        ensures { MatchResult result (λ setting. (first_refusal width kind table.now ≡ None) × (suc setting.v ≡ width) × (setting.table.kind ≡ kind) × (setting.table.bytes ≡ table.entry)) (λ why. first_refusal width kind table.now ≡ Some why) }
    {
        Refusal::Width.unless(sound_width(width))?;
        Refusal::Kind.unless(kind::sound_kind(kind))?;
        let table = SoundTable::check(kind, table)?;
        Ok(Setting {
            v: width - 1,
            table,
        })
    }
}
