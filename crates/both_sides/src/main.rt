// Every row of document 01's "Both sides of the line", and of document 02 the pair check's temperatures (b) and vapours (f), at 32 and at 53
// bits (d), and widths that are neither; and the limits of kind 58 with kinds that are neither (h), through the public functions of
// `verdict`: a line for each case. The stored output is the second program's (second/tests/test_both_sides.py, which also says the order),
// so nothing here judges an answer.
#![tactic(auto)]

mod asked; // asked.rt: one case through the functions, and its lines
mod kinds; // kinds.rt: the limits of kind 58, and kinds that are neither
mod gaps; // gaps.rt: targets, tolerances, sides, least gaps, stiffnesses
mod states; // states.rt: temperatures and densities
mod tables; // tables.rt: tables, terms and the ceiling
mod vapours; // vapours.rt: vapours about zero pressure, and the odd table
mod widths; // widths.rt: widths that are neither 32 nor 53

use std::io;
use std::io::Write;

// One term c 0, d 1, t 0 with coefficient 1/1000: what is asked with it is accepted, unless the case is about something else.
pub const EASY: [u8; 9] = [4, 0, 0, 9, 24, 78, 114, 160, 0];

const NO_WIDTHS: [u64; 7] = [0, 31, 33, 52, 54, 4294967328, 18446744073709551615];

const NO_KINDS: [u64; 9] = [0, 37, 39, 57, 59, 60, 580, 4294967334, 18446744073709551615];

fn main(rt: HostRuntime) -> io::Result<()> {
    let mut output = rt.stdout();
    for width in [32, 53] {
        of_kind_38(&mut output, width)?;
    }
    for width in NO_WIDTHS {
        widths::none(&mut output, width)?;
    }
    for width in [32, 53] {
        of_kind_58(&mut output, width)?;
    }
    for width in [32, 53] {
        for kind in NO_KINDS {
            kinds::none(&mut output, width, kind)?;
        }
    }
    Ok(())
}

fn of_kind_58<W: Write>(output: &mut W, width: u64) -> io::Result<()> {
    kinds::temperatures(output, width)?;
    kinds::densities(output, width)?;
    kinds::lengths(output, width)?;
    kinds::terms(output, width)?;
    kinds::ceilings(output, width)?;
    kinds::targets(output, width)
}

fn of_kind_38<W: Write>(output: &mut W, width: u64) -> io::Result<()> {
    states::temperatures(output, width)?;
    states::densities(output, width)?;
    tables::lengths(output, width)?;
    tables::terms(output, width)?;
    tables::ceilings(output, width)?;
    tables::empty(output, width, 38)?;
    gaps::targets(output, width)?;
    gaps::tolerances(output, width)?;
    gaps::sides(output, width)?;
    gaps::least_gaps(output, width)?;
    gaps::stiffnesses(output, width)?;
    vapours::about_zero(output, width)?;
    vapours::odd(output, width)
}
