// Vapours whose pressure is zero, or just above it, or below it.
use crate::asked::Asked;
use std::io;
use std::io::Write;

// One term c 0, d 1, t 0, the vapour at half the critical density: with coefficient -2 its pressure is exactly zero; with the next two its
// lower end is, and is not, at one width or the other.
const ABOUT_ZERO: [(&str, &[u8]); 5] = [
    (
        "vapour's pressure 0",
        b"\x04\x10\x47\x0d\xe4\xdf\x82\x00\x00",
    ),
    (
        "vapour's pressure down to 0 at 32",
        b"\x04\x10\x47\x0d\xe4\xdf\x3a\xf2\x1c",
    ),
    (
        "vapour's pressure above 0 at 32",
        b"\x04\x10\x47\x0d\xe4\xdf\x3a\xf2\x1b",
    ),
    (
        "vapour's pressure down to 0 at 53",
        b"\x04\x10\x47\x0d\xe4\xdf\x81\xff\xfe",
    ),
    (
        "vapour's pressure above 0 at 53",
        b"\x04\x10\x47\x0d\xe4\xdf\x81\xff\xfd",
    ),
];

pub fn about_zero<W: Write>(output: &mut W, width: u64) -> io::Result<()> {
    for (label, table) in ABOUT_ZERO {
        let a = Asked::table(width, 38, label, table);
        let who = "pair check";
        a.pair(output, who, 300.0, 322.125, 161.0, 1000000.0, 1000000.0)?;
    }
    Ok(())
}

// The odd table: four terms c 0, t 0 with d 1 to 4, coefficients -7.3, 7.2, -3.7 and 0.74.
const ODD: &[u8] =
    b"\x04\x11\x03\x59\x1c\xfc\x9a\x80\x00\x08\x00\xff\xcb\x9e\x57\xd4\x00\x00\x0c\x10\x83\x73\x4d\xd0\xb0\x80\x00\x10\x00\x1a\x4a\x42\xc3\x56\x80\x00";

// Two pairs in balance, the first with both pressures below zero.
const BALANCED: [(&str, f64, f64); 2] = [
    ("odd table, below zero", 476.11653, 267.05587),
    ("odd table, above zero", 494.77736, 7.668745),
];

pub fn odd<W: Write>(output: &mut W, width: u64) -> io::Result<()> {
    for (label, liquid, vapour) in BALANCED {
        let a = Asked::table(width, 38, label, ODD);
        a.sheet(output, "state sheet's liquid", 394.15, liquid)?;
        a.sheet(output, "state sheet's vapour", 394.15, vapour)?;
        a.pair(output, "pair check", 394.15, liquid, vapour, 1000.0, 1.0)?;
    }
    Ok(())
}
