// Words on their way in and out of the programs that the comparisons run: eight bytes in, most significant first, 16 hexadecimal digits out;
// a width, 32 or 53; and sheet numbers of three words, sign, digits and place. Assumes nothing.
#![tactic(auto)]

ghost use Rattle.std.specs.Prelude.{◌≡◌, true, length, IfOk, IfSome};
ghost use Rattle.std.specs.Float.Ieee.{of_bits};
ghost use Rattle.std.specs.Float.{binary64};
ghost use Rattle.exact.specs.Fraction.{nat, ◌≺◌};
ghost use Rattle.sheet.specs.Number.{value};
ghost use Rattle.sheet.specs.Range.{Width, InRange};
ghost use Rattle.words.specs.Operation.{Named};

use sheet::Sheet;
use std::io;
use std::io::{Read, Write};

// Fills the slice with the next words of the input, and answers whether they were all there.
fn read<R: Read>(input: &mut R, words: &mut [u64]) -> io::Result<bool> {
    for word in words.iter_mut() {
        let mut eight = [0u8; 8];
        if intake::fill(input, &mut eight)? < 8 {
            return Ok(false);
        }
        *word = u64::from_be_bytes(eight);
    }
    Ok(true)
}

// The next record of N words, if it is there whole.
// Stays: each program has its loop over records; one loop that takes a closure was tried, and no bound `FnMut` may name a const parameter.
pub fn record<const N: usize, R: Read>(input: &mut R) -> io::Result<Option<[u64; N]>> {
    let mut words = [0u64; N];
    Ok(read(input, &mut words)?.then_some(words))
}

// Reads bytes and the zero bytes behind them, up to a multiple of eight, and answers with the bytes if they were there whole and have room.
pub fn bytes<'a, R: Read>(
    input: &mut R,
    buffer: &'a mut [u8; 800],
    count: u64,
) -> io::Result<Option<&'a [u8]>>
    ensures { IfOk result (λ found. IfSome found (λ bytes. length bytes.now ≡ count)) }
{
    if 800 < count {
        return Ok(None);
    }
    let count = count as usize;
    let padded = count.next_multiple_of(8);
    if intake::fill(input, &mut buffer[..padded])? < padded {
        return Ok(None);
    }
    Ok(Some(&buffer[..count]))
}

// A line of words.
pub fn line<W: Write>(output: &mut W, words: &[u64]) -> io::Result<()> {
    start(output, words)?;
    end_line(output)
}

// A line's first words.
pub fn start<W: Write>(output: &mut W, words: &[u64]) -> io::Result<()> {
    if let Some((first, rest)) = words.split_first() {
        write!(output, "{first:016x}")?;
        more(output, rest)?;
    }
    Ok(())
}

// Words more on a line.
pub fn more<W: Write>(output: &mut W, words: &[u64]) -> io::Result<()> {
    for word in words {
        write!(output, " {word:016x}")?;
    }
    Ok(())
}

// Ends a line.
pub fn end_line<W: Write>(output: &mut W) -> io::Result<()> {
    writeln!(output)
}

// A sheet number of three words.
pub fn number(neg: u64, m: u64, e: u64) -> Sheet {
    Sheet {
        neg: neg == 1,
        m,
        e,
    }
}

// The line of sheet numbers, three words each; zeros stand for what has no answer.
pub fn answer_line<const N: usize, W: Write>(
    output: &mut W,
    answer: Option<[Sheet; N]>,
) -> io::Result<()> {
    let numbers = answer.unwrap_or([Sheet::ZERO; N]);
    for (place, s) in numbers.iter().enumerate() {
        if 0 < place {
            write!(output, " ")?;
        }
        write!(
            output,
            "{:016x} {:016x} {:016x}",
            u64::from(s.neg),
            s.m,
            s.e
        )?;
    }
    end_line(output)
}

// What is done with two numbers or brackets.
#[derive(Clone, Copy)]
pub enum Operation {
    Sum,
    Difference,
    Product,
    Quotient,
}

impl TryFrom<u64> for Operation {
    type Error = u64;

    ghost try_from_gives = { Named };

    fn try_from(number: u64) -> Result<Operation, u64> {
        match number {
            0 => Ok(Operation::Sum),
            1 => Ok(Operation::Difference),
            2 => Ok(Operation::Product),
            3 => Ok(Operation::Quotient),
            _ => Err(number),
        }
    }
}

// The f64 of a bit pattern; every NaN's pattern gives the one NaN.
// Stays: `line` has the same for the bench program; it leans on lent alone, and nothing of the library leans on this crate.
pub fn double(bits: u64) -> f64
    ensures { result ≡ of_bits binary64 bits }
{
    if 0x7FF0000000000000 < bits % 0x8000000000000000 {
        0.0 / 0.0
    } else {
        f64::from_bits(bits)
    }
}

// One less than a width, as the functions that round take it.
pub fn digits_of(width: u64) -> Option<u64>
    ensures { IfSome result (λ v. Width v) }
{
    match width {
        32 => Some(31),
        53 => Some(52),
        _ => None,
    }
}

// Whether the operations take the number.
pub fn usable(v: u64, s: Sheet) -> bool
    requires { Width v }
    ensures { result ≡ true → InRange v s }
{
    if s.m == 0 {
        return !s.neg && s.e == 0;
    }
    s.m >> v == 1 && 182144 <= s.e && s.e <= 342144
}

// Whether the number may be a divisor.
pub fn above_zero(s: Sheet) -> bool
    ensures { result ≡ true → nat 0 ≺ value s }
{
    !s.neg && 0 < s.m
}
