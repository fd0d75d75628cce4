// A table's terms by value, in an array of 64: what `lay` puts into the lent slice and the engine works on.
ghost use Rattle.quick.specs.Unpacked.{Holds};

use term::{SoundTable, Term};
use verdict::Setting;

// A place of the array behind the terms.
pub const BLANK: Term = Term {
    c: 0,
    factor: 0,
    d: 0,
    t: 0,
    negative: false,
    magnitude: 0,
};

// A setting, and its table's terms.
#[derive(Drop)]
pub struct Unpacked<'a> {
    pub setting: Setting<'a>,
    pub list: [Term; 64],
    pub ghost holds: { Holds setting.table.kind setting.table.bytes.now list },
}

impl<'a> Unpacked<'a> {
    ghost use Rattle.std.specs.Prelude.{◌≡◌};

    pub fn of(setting: Setting<'a>) -> Self
        ensures { result.setting ≡ setting.entry }
    {
        let list = terms_of(setting.table);
        Unpacked { setting, list }
    }
}

// A table's terms, each read once, and blanks behind them.
fn terms_of(table: SoundTable) -> [Term; 64]
    ensures { Holds table.entry.kind table.entry.bytes.now result }
{
    let mut list = [BLANK; 64];
    for i in 0..table.count() {
        list[i] = table.at(i);
    }
    list
}
