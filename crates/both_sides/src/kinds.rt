// Kind 58: temperatures, densities, tables, terms, the ceiling and targets on both sides of its own limits; and kinds that are neither.
// Stays: functions of the names that `states` and `tables` have: the cases are others, and each list is asked in the order of its lines.
use crate::EASY;
use crate::asked::Asked;
use crate::tables::{empty, filled};
use std::io;
use std::io::Write;

// One term c 0, d 1, t 0 with coefficient 1/1000, in twelve bytes.
const EASIER: [u8; 12] = [0, 0, 32, 0, 0, 36, 97, 57, 202, 128, 0, 0];

const TEMPERATURES: [(&str, u64); 7] = [
    ("T 252", 0x406F800000000000),
    ("T next under 252", 0x406F7FFFFFFFFFFF),
    ("T next under 273.16", 0x4071128F5C28F5C2),
    ("T 273.16", 0x4071128F5C28F5C3),
    ("T 1273", 0x4093E40000000000),
    ("T next above 1273", 0x4093E40000000001),
    ("T NaN", 0x7FF8000000000000),
];

const DENSITIES: [(&str, u64); 5] = [
    ("density 1/1024", 0x3F50000000000000),
    ("density next under 1/1024", 0x3F4FFFFFFFFFFFFF),
    ("density 2576", 0x40A4200000000000),
    ("density next above 2576", 0x40A4200000000001),
    ("density NaN", 0x7FF8000000000000),
];

pub fn temperatures<W: Write>(output: &mut W, width: u64) -> io::Result<()> {
    for (label, bits) in TEMPERATURES {
        Asked::value(width, 58, label, &EASIER, bits).each(output, words::double(bits))?;
    }
    Ok(())
}

pub fn densities<W: Write>(output: &mut W, width: u64) -> io::Result<()> {
    for (label, bits) in DENSITIES {
        let rho = words::double(bits);
        let a = Asked::value(width, 58, label, &EASIER, bits);
        a.sheet(output, "state sheet", 300.0, rho)?;
        a.density(output, "density check", 300.0, rho, 0.0, 1000000.0)?;
    }
    Ok(())
}

pub fn lengths<W: Write>(output: &mut W, width: u64) -> io::Result<()> {
    let bytes = filled(&EASIER);
    for (label, table) in [
        ("table of 12 bytes", &bytes[..12]),
        ("table of 768 bytes", &bytes[..768]),
        ("table of 0 bytes", &bytes[..0]),
        ("table of 9 bytes", &bytes[..9]),
        ("table of 11 bytes", &bytes[..11]),
        ("table of 13 bytes", &bytes[..13]),
        ("table of 780 bytes", &bytes[..780]),
    ] {
        Asked::table(width, 58, label, table).each(output, 300.0)?;
    }
    Ok(())
}

// One term c 1, factor 100, d 1, t 0 with coefficient 10^-16, but for what the label says.
const TERMS: [(&str, &[u8]); 7] = [
    ("t 63", b"\x11\x90\x3f\x80\x00\x00\x00\x00\x00\x00\x04\x00"),
    (
        "magnitude 10^17 + 1",
        b"\x11\x90\x20\x05\x8d\x15\xe1\x76\x28\x00\x04\x00",
    ),
    ("d 0", b"\x11\x90\x00\x00\x00\x00\x00\x00\x00\x00\x04\x00"),
    (
        "factor 0 with c 1",
        b"\x10\x00\x20\x00\x00\x00\x00\x00\x00\x00\x04\x00",
    ),
    (
        "factor 100 with c 0",
        b"\x01\x90\x20\x00\x00\x00\x00\x00\x00\x00\x04\x00",
    ),
    (
        "first spare bit",
        b"\x11\x90\x20\x00\x00\x00\x00\x00\x00\x00\x06\x00",
    ),
    (
        "last spare bit",
        b"\x11\x90\x20\x00\x00\x00\x00\x00\x00\x00\x04\x01",
    ),
];

pub fn terms<W: Write>(output: &mut W, width: u64) -> io::Result<()> {
    for (label, table) in TERMS {
        Asked::table(width, 58, label, table).each(output, 300.0)?;
    }
    Ok(())
}

// One term c 0, d 1, t 0 whose last unit takes the upper end of pressure from exactly 25 x 10^9 to the next sheet number, at one width or
// the other.
const CEILINGS: [(&str, &[u8]); 4] = [
    (
        "up to 25 x 10^9 at 32",
        b"\x00\x00\x20\x04\xc7\x3a\x9e\xcc\xf8\xa6\xd8\x00",
    ),
    (
        "up to 25 x 10^9 + 16 at 32",
        b"\x00\x00\x20\x04\xc7\x3a\x9e\xcc\xf8\xa6\xdc\x00",
    ),
    (
        "up to 25 x 10^9 at 53",
        b"\x00\x00\x20\x04\xc7\x3a\x9e\xd4\x4b\x04\xf4\x00",
    ),
    (
        "up to 25 x 10^9 + 2^-18 at 53",
        b"\x00\x00\x20\x04\xc7\x3a\x9e\xd4\x4b\x04\xf8\x00",
    ),
];

pub fn ceilings<W: Write>(output: &mut W, width: u64) -> io::Result<()> {
    for (label, table) in CEILINGS {
        Asked::table(width, 58, label, table).ceiling(output, 301.0, 2576.0, 25000000000.0)?;
    }
    Ok(())
}

const TARGETS: [(&str, u64); 3] = [
    ("target next above 10^9", 0x41CDCD6500000001),
    ("target 25 x 10^9", 0x42174876E8000000),
    ("target next above 25 x 10^9", 0x42174876E8000001),
];

pub fn targets<W: Write>(output: &mut W, width: u64) -> io::Result<()> {
    for (label, bits) in TARGETS {
        let a = Asked::value(width, 58, label, &EASIER, bits);
        let target = words::double(bits);
        a.density(output, "density check", 300.0, 1.0, target, 1000000.0)?;
    }
    Ok(())
}

// A kind that is neither 38 nor 58 is asked before the table.
pub fn none<W: Write>(output: &mut W, width: u64, kind: u64) -> io::Result<()> {
    Asked::table(width, kind, "sound table", &EASY).each(output, 300.0)?;
    empty(output, width, kind)
}
