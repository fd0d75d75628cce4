// Reads tables from standard input and writes a line of words for each: the check's number, the place, and the fields of
// each term of a sound table. A table is its kind and its length as words, then its bytes, then zero bytes up to a multiple of eight;
// at most 800 bytes. Assumes nothing.
#![tactic(auto)]

use std::io;
use std::io::Write;
use term::{Fault, SoundTable};

fn write_terms<W: Write>(output: &mut W, table: SoundTable) -> io::Result<()> {
    for k in 0..table.count() {
        let term = table.at(k);
        let negative = u64::from(term.negative);
        words::more(
            output,
            &[
                term.c,
                term.factor,
                term.d,
                term.t,
                negative,
                term.magnitude,
            ],
        )?;
    }
    Ok(())
}

fn write_line<W: Write>(output: &mut W, kind: u64, bytes: &[u8]) -> io::Result<()> {
    match SoundTable::check(kind, bytes) {
        Ok(table) => {
            words::start(output, &[0, 0])?;
            write_terms(output, table)?;
            words::end_line(output)
        }
        Err(Fault::Length) => words::line(output, &[1, 0]),
        Err(Fault::Broken(place)) => words::line(output, &[2, place as u64]),
    }
}

// A proved loop has to end, so it makes at most as many turns as no run uses up.
fn main(rt: HostRuntime) -> io::Result<()> {
    let mut input = rt.stdin();
    let mut output = rt.stdout();
    for _ in 0..1_000_000_000u64 {
        let Some(head) = words::record(&mut input)? else {
            break;
        };
        let [kind, count]: [u64; 2] = head;
        let mut buffer = [0u8; 800];
        let Some(bytes) = words::bytes(&mut input, &mut buffer, count)? else {
            break;
        };
        write_line(&mut output, kind, bytes)?;
    }
    Ok(())
}
