// A width that is neither 32 nor 53 is asked before the table.
use crate::asked::Asked;
use crate::{EASY, tables};
use std::io;
use std::io::Write;

pub fn none<W: Write>(output: &mut W, width: u64) -> io::Result<()> {
    Asked::table(width, 38, "sound table", &EASY).each(output, 300.0)?;
    tables::empty(output, width, 38)
}
