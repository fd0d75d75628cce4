// A table of one kind as a table of another. Both calls are this one, at their kinds.
ghost use Rattle.std.specs.Prelude.{◌≡◌};
ghost use Rattle.convert.specs.Converts.{Packs, Says};

use super::{ConvertFault, form};
use term::SoundTable;

// The terms packed anew: how many bytes they are, or the place of the first term that has no such form. Each term goes behind those before
// it, into the array of the function's caller. 64 terms of at most 12 bytes are 768.
fn pack_terms(to: u64, table: SoundTable, packed: &mut [u8; 768]) -> Result<usize, usize>
    ensures { Packs table.entry.kind to table.entry.bytes.now packed.old packed.new result }
{
    let mut at: usize = 0;
    for i in 0..table.count() {
        let term = table.at(i);
        if !form::has_form(to, term) {
            return Err(i + 1);
        }
        at = form::put_form(to, packed, at, term);
    }
    Ok(at)
}

pub fn convert(from: u64, to: u64, table: &[u8], out: &mut [u8]) -> Result<usize, ConvertFault>
    ensures says { Says from to table.now out.old out.new result }
    ensures table_stays { table.exit.now ≡ table.entry.now }
{
    let sound = SoundTable::check(from, table).map_err(ConvertFault::Unsound)?;
    let mut packed = [0u8; 768];
    let n = pack_terms(to, sound, &mut packed).map_err(ConvertFault::NoOldForm)?;
    lent::deliver(&packed[..n], out).ok_or(ConvertFault::NoRoom)
}
