// Reads states and pairs from standard input and writes the f64s of their brackets, a line each, for a comparison bit for bit. A
// record is the width (32 or 53), the kind of table (38 or 58), a table (its length as a word, its bytes, zero bytes up to a multiple of
// eight), the temperature, and the density of a state or of a liquid; a word above 800 behind them is the vapour's density of a pair. A
// state's line has its pressure and stiffness; a pair's the liquid's pressure, the vapour's, the gap of the two, the Gibbs gap, and both
// stiffnesses. What is not accepted, as another width, has an empty line. Assumes nothing.
#![tactic(auto)]

ghost use Rattle.std.specs.Prelude.{◌^◌, ◌<◌, T};
ghost use Rattle.sheet.specs.Range.{Doubled};
ghost use Rattle.kind.specs.Kind.{widest};
ghost use Rattle.doubles.specs.Range.{accepted_temperature, accepted_density};
ghost use Rattle.bracket.specs.Held.{Ends};

use bracket::Bracket;
use std::io;
use std::io::{Read, Write};
use term::SoundTable;

// The f64s of a bracket's ends, as their bits.
fn bits(b: Bracket) -> [u64; 2]
    requires { Ends (λ s. Doubled s × (s.m < 2 ^ 53)) b }
{
    let lo = doubles::encode::double_of(b.lo);
    let hi = doubles::encode::double_of(b.hi);
    [f64::to_bits(lo), f64::to_bits(hi)]
}

// A state that is accepted, and its table.
#[derive(Clone, Copy)]
struct State<'a> {
    width: u64,
    table: SoundTable<'a>,
    t: f64,
    rho: f64,
    ghost temperature: { T (accepted_temperature widest t) },
    ghost density: { T (accepted_density widest rho) },
}

impl<'a> State<'a> {
    fn accepted(width: u64, kind: u64, bytes: &'a [u8], t: f64, rho: f64) -> Option<Self> {
        // First, so that what is no width costs no check of the table.
        words::digits_of(width)?;
        let table = SoundTable::check(kind, bytes).ok()?;
        if !doubles::range::accepts_temperature(58, t)
            || !doubles::range::accepts_density(58, rho)
        {
            return None;
        }
        Some(State {
            width,
            table,
            t,
            rho,
        })
    }

    // Pressure and stiffness.
    fn ends(self) -> Option<[[u64; 2]; 2]> {
        let v = words::digits_of(self.width)?;
        let t = self.t;
        let s = equation::sums_of(v, self.table, t, self.rho);
        Some([
            bits(equation::pressure_of(v, t, self.rho, s)),
            bits(equation::stiffness_of(v, t, s)),
        ])
    }

    // As a liquid's state, with a vapour's density: both pressures, their gap, the Gibbs gap, and both stiffnesses.
    fn pair_ends(self, vapour: f64) -> Option<[[u64; 2]; 6]> {
        let v = words::digits_of(self.width)?;
        let t = self.t;
        let liquid = self.rho;
        if !doubles::range::accepts_density(58, vapour)
            || !doubles::range::at_most(vapour, liquid)
        {
            return None;
        }
        let l = equation::sums_of(v, self.table, t, liquid);
        let g = equation::sums_of(v, self.table, t, vapour);
        let of_liquid = equation::pressure_of(v, t, liquid, l);
        let of_vapour = equation::pressure_of(v, t, vapour, g);
        Some([
            bits(of_liquid),
            bits(of_vapour),
            bits(equation::pressure_gap_of(v, of_liquid, of_vapour)),
            bits(equation::gibbs_gap_of(v, t, liquid, vapour, l, g)),
            bits(equation::stiffness_of(v, t, l)),
            bits(equation::stiffness_of(v, t, g)),
        ])
    }
}

fn write_ends<const N: usize, W: Write>(
    output: &mut W,
    ends: Option<[[u64; 2]; N]>,
) -> io::Result<()> {
    match ends {
        Some(ends) => words::line(output, ends.as_flattened()),
        None => words::end_line(output),
    }
}

fn next_word<R: Read>(input: &mut R) -> io::Result<Option<u64>> {
    let word = words::record::<1, _>(input)?;
    Ok(word.map(|w| w[0]))
}

// The line of a record by the word behind its first density; what is answered is the next record's first word.
fn line<R: Read, W: Write>(
    input: &mut R,
    output: &mut W,
    state: Option<State>,
) -> io::Result<Option<u64>> {
    let behind = next_word(input)?;
    match behind {
        Some(word) if 800 < word => {
            let vapour = words::double(word);
            write_ends(output, state.and_then(|s| s.pair_ends(vapour)))?;
            next_word(input)
        }
        _ => {
            write_ends(output, state.and_then(|s| s.ends()))?;
            Ok(behind)
        }
    }
}

fn one_record<R: Read, W: Write>(
    input: &mut R,
    output: &mut W,
    width: u64,
) -> io::Result<Option<u64>> {
    let Some(head) = words::record(input)? else {
        return Ok(None);
    };
    let [kind, count]: [u64; 2] = head;
    let mut buffer = [0u8; 800];
    let Some(bytes) = words::bytes(input, &mut buffer, count)? else {
        return Ok(None);
    };
    let Some(numbers) = words::record(input)? else {
        return Ok(None);
    };
    let [t, rho]: [u64; 2] = numbers;
    let state = State::accepted(width, kind, bytes, words::double(t), words::double(rho));
    line(input, output, state)
}

// A proved loop has to end, so it makes at most as many turns as no run uses up.
fn main(rt: HostRuntime) -> io::Result<()> {
    let mut input = rt.stdin();
    let mut output = rt.stdout();
    let mut next = next_word(&mut input)?;
    for _ in 0..1_000_000_000u64 {
        let Some(width) = next else {
            break;
        };
        next = one_record(&mut input, &mut output, width)?;
    }
    Ok(())
}
