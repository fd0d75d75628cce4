// The program `tables` of document 02, c: `tables read <text >terms` and `tables write <terms >text`. A refusal is one line on standard
// error, and nothing on standard output. What is read and written is the library's; the rest reads, calls and writes.
#![tactic(auto)]

use std::env::FillError;
use std::io;
use std::io::{Read, Write};
use std::rt::Env;
use text::{Fault, ReadFault, WriteFault};

fn main(rt: HostRuntime) -> io::Result<()> {
    let mut input = rt.stdin();
    let mut output = rt.stdout();
    if is_named(&rt, b"read") {
        read(&rt, &mut input, &mut output)
    } else if is_named(&rt, b"write") {
        write(&rt, &mut input, &mut output)
    } else {
        eprintln!(rt; "usage: tables read <text >terms, or tables write <terms >text")
    }
}

// Whether the command is the one word behind the program's name. A word longer than the buffer names none.
fn is_named(rt: &impl Env, command: &[u8]) -> bool {
    let mut word = [0u8; 5];
    match rt.arg(2, &mut word) {
        Err(FillError::NotPresent) => {}
        Ok(_) | Err(FillError::TooLong) => return false,
    }
    match rt.arg(1, &mut word) {
        Ok(length) => &word[..length] == command,
        Err(_) => false,
    }
}

// A table's text has at most 1,664 bytes, and one byte more tells of any longer one which line is the first bad one (`enough` in `text`).
fn read<R: Read, W: Write>(rt: &impl Eprint, input: &mut R, output: &mut W) -> io::Result<()> {
    let mut text = [0u8; 1665];
    let length = intake::fill(input, &mut text)?;
    let mut terms = [0u8; 576];
    match text::read_text(&text[..length], &mut terms) {
        Ok(n) => output.write_all(&terms[..n]),
        Err(ReadFault::BadRow(line)) => refuse_line(rt, line),
        Err(ReadFault::NoRoom) => eprintln!(rt; "refused, 18, there is no room"),
    }
}

// A table has at most 576 bytes, and one byte more tells that a longer one is longer.
fn write<R: Read, W: Write>(rt: &impl Eprint, input: &mut R, output: &mut W) -> io::Result<()> {
    let mut terms = [0u8; 577];
    let length = intake::fill(input, &mut terms)?;
    let mut text = [0u8; 1664];
    match text::write_text(&terms[..length], &mut text) {
        Ok(n) => output.write_all(&text[..n]),
        Err(WriteFault::Unsound(Fault::Length)) => {
            eprintln!(rt; "refused, 1, a table has 9 to 576 bytes, in nines")
        }
        Err(WriteFault::Unsound(Fault::Broken(place))) => {
            eprintln!(rt; "refused, 2, term {place} breaks a rule")
        }
        Err(WriteFault::NoSpelling(place)) => {
            eprintln!(rt; "refused, 17, term {place} has no spelling")
        }
        Err(WriteFault::TooLong) => eprintln!(rt; "refused, 18, there is no room"),
    }
}

fn refuse_line(rt: &impl Eprint, line: usize) -> io::Result<()> {
    if line < 65 {
        eprintln!(rt; "refused, 16, line {line} is no row of a table")
    } else {
        eprintln!(rt; "refused, 16, line {line} is more than a table has")
    }
}
