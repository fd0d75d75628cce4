// The bench program of document 01: a table of terms from `terms.bin`, proposals from standard input, one line for each, at the width that
// the first word names (document 02, d), 32 where there is none, for the kind of table that the second names (document 02, h), 38 where there
// is none. What a line says is proved (`answer_line`, `cut_line`), and what a word names (`line::width_of`, `line::kind_of`); the rest reads,
// calls and writes.
#![tactic(auto)]

mod answer;

ghost use Rattle.std.specs.Io.{ReadsAtMost};

use answer::{answer_line, cut_line};
use line::Line;
use std::env::FillError;
use std::fs::File;
use std::io;
use std::io::{Read, Write};
use std::rt::{Env, Files};

fn main(rt: HostRuntime) -> io::Result<()> {
    let mut table = [0u8; 769];
    let length = read_table(&rt, &mut table)?;
    let mut input = rt.stdin();
    let mut output = rt.stdout();
    let width = named(&rt, 1, |word| line::width_of(word), 32);
    let kind = named(&rt, 2, |word| line::kind_of(word), 38);
    answer_all(&mut input, &mut output, width, kind, &table[..length])
}

// What a word of the command line names, or what stands for a word that is missing. A word of more than two bytes counts as empty: it names no
// width, and every proposal gets 19, or no kind, and 29.
fn named<F: Fn(&[u8]) -> u64>(rt: &impl Env, place: usize, name: F, missing: u64) -> u64
    requires { F.IsAlwaysCallable name }
{
    let mut word = [0u8; 2];
    match rt.arg(place, &mut word) {
        Ok(length) => name(&word[..length]),
        Err(FillError::TooLong) => name(b""),
        Err(FillError::NotPresent) => missing,
    }
}

// The table's bytes, and how many there are: none where there is no file, 769 where it is longer than any sound table.
fn read_table(files: &impl Files, table: &mut [u8]) -> io::Result<usize>
    ensures { ReadsAtMost result table.new }
{
    match File::open(files, "terms.bin") {
        Ok(mut file) => intake::fill(&mut file, table),
        Err(_) => Ok(0),
    }
}

// A proved loop has to end, and nothing says that the input does: the count's own end, which no run meets, is the last.
fn answer_all<R: Read, W: Write>(
    input: &mut R,
    output: &mut W,
    width: u64,
    kind: u64,
    table: &[u8],
) -> io::Result<()> {
    for count in 1..u64::MAX {
        if !answer_one(input, output, width, kind, table, count)? {
            break;
        }
    }
    Ok(())
}

// One proposal, from as many pieces as the input comes in. Answers whether another may follow.
fn answer_one<R: Read, W: Write>(
    input: &mut R,
    output: &mut W,
    width: u64,
    kind: u64,
    table: &[u8],
    count: u64,
) -> io::Result<bool> {
    let mut proposal = [0u8; 40];
    let got = intake::fill(input, &mut proposal)?;
    if got == 0 {
        return Ok(false);
    }
    if got < 40 {
        write_line(output, cut_line(count))?;
        return Ok(false);
    }
    write_line(output, answer_line(width, kind, table, count, &proposal))?;
    Ok(true)
}

fn write_line<W: Write>(output: &mut W, line: Line) -> io::Result<()> {
    output.write_all(line.text())
}
