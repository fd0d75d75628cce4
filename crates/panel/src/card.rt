// The vapour card, for C: one value of it by a choice, 0 the number, 1 the place, 2 and 3 the ends of B, 4 and 5 those of C, 6 and 7 those of
// the pressure, as f64 bits; anything else is 0. The table's bytes, of nine-byte terms, are lent, and only read.
ghost use Rattle.std.specs.Prelude.{◌≡◌};
ghost use Rattle.virial.specs.Answers.{card_answer};
ghost use Rattle.panel.specs.Chosen.{card_chosen};

use verdict::State;

#[unsafe(no_mangle)]
pub extern "C" fn wb_virial(width: u64, table: &[u8], t: f64, rho: f64, choice: u64) -> u64
    ensures value { result ≡ card_chosen (card_answer width table.now t rho) choice }
    ensures table_stays { table.exit.now ≡ table.entry.now }
{
    let state = State {
        temperature: t,
        density: rho,
    };
    let values = reading::of_card(virial::vapour_card(width, table, state));
    super::at(&values, choice)
}
