// Targets, tolerances, the sides of 322, and gaps and stiffnesses of exactly zero or the least f64 from it.
use crate::EASY;
use crate::asked::Asked;
use std::io;
use std::io::Write;

// Two terms with t 0, d 1 and 2, coefficients -3 and 1: at density 322 pressure is exactly zero, and stiffness is above it.
const NO_PRESSURE: &[u8] =
    b"\x04\x10\x6a\x94\xd7\x4f\x43\x00\x00\x08\x00\x23\x86\xf2\x6f\xc1\x00\x00";

const TARGETS: [(&str, u64); 10] = [
    ("target 0", 0x0000000000000000),
    ("target -0", 0x8000000000000000),
    ("target next above 0", 0x0000000000000001),
    ("target next under 0", 0x8000000000000001),
    ("target -1", 0xBFF0000000000000),
    ("target 10^9", 0x41CDCD6500000000),
    ("target next above 10^9", 0x41CDCD6500000001),
    ("target NaN", 0x7FF8000000000000),
    ("target infinity", 0x7FF0000000000000),
    ("target -infinity", 0xFFF0000000000000),
];

const TOLERANCES: [(&str, u64); 10] = [
    ("tolerance 0", 0x0000000000000000),
    ("tolerance -0", 0x8000000000000000),
    ("tolerance next above 0", 0x0000000000000001),
    ("tolerance next under 0", 0x8000000000000001),
    ("tolerance -1", 0xBFF0000000000000),
    ("tolerance 10^6", 0x412E848000000000),
    ("tolerance next above 10^6", 0x412E848000000001),
    ("tolerance NaN", 0x7FF8000000000000),
    ("tolerance infinity", 0x7FF0000000000000),
    ("tolerance -infinity", 0xFFF0000000000000),
];

pub fn targets<W: Write>(output: &mut W, width: u64) -> io::Result<()> {
    for (label, bits) in TARGETS {
        let a = Asked::value(width, 38, label, NO_PRESSURE, bits);
        let target = words::double(bits);
        a.density(output, "density check", 300.0, 322.0, target, 0.0)?;
    }
    Ok(())
}

pub fn tolerances<W: Write>(output: &mut W, width: u64) -> io::Result<()> {
    for (label, bits) in TOLERANCES {
        let most = words::double(bits);
        let none = Asked::value(width, 38, label, NO_PRESSURE, bits);
        none.density(output, "density check", 300.0, 322.0, 0.0, most)?;
        let a = Asked::value(width, 38, label, &EASY, bits);
        let pressure = "pair check's pressure";
        a.pair(output, pressure, 300.0, 322.125, 321.875, most, 1000000.0)?;
        let gibbs = "pair check's Gibbs energy";
        a.pair(output, gibbs, 300.0, 322.125, 321.875, 1000000.0, most)?;
    }
    Ok(())
}

pub fn sides<W: Write>(output: &mut W, width: u64) -> io::Result<()> {
    for (label, bits) in [
        ("liquid 322", 0x4074200000000000),
        ("liquid next above 322", 0x4074200000000001),
    ] {
        pair(output, width, label, bits, words::double(bits), 321.875)?;
    }
    for (label, bits) in [
        ("vapour 322", 0x4074200000000000),
        ("vapour next under 322", 0x40741FFFFFFFFFFF),
    ] {
        pair(output, width, label, bits, 322.125, words::double(bits))?;
    }
    Ok(())
}

fn pair<W: Write>(
    output: &mut W,
    width: u64,
    label: &str,
    bits: u64,
    liquid: f64,
    vapour: f64,
) -> io::Result<()> {
    let a = Asked::value(width, 38, label, &EASY, bits);
    let who = "pair check";
    a.pair(output, who, 300.0, liquid, vapour, 1000000.0, 1000000.0)
}

// One term c 0, d 1, t 0 with coefficient -1: at density 322 pressure is exactly zero, and stiffness below it. The gap is minus the target,
// down to the least f64 of all.
pub fn least_gaps<W: Write>(output: &mut W, width: u64) -> io::Result<()> {
    let table = b"\x04\x10\x23\x86\xf2\x6f\xc1\x00\x00";
    let least = words::double(1);
    for (label, target, tolerance) in [
        ("gap of 0, tolerance 0", 0.0, 0.0),
        ("gap of -2^-1074, tolerance 0", least, 0.0),
        ("gap of -2^-1074, tolerance 2^-1074", least, least),
    ] {
        let a = Asked::table(width, 38, label, table);
        a.density(output, "density check", 300.0, 322.0, target, tolerance)?;
    }
    Ok(())
}

// One term c 0, d 1, t 0, the density and the target: with coefficient -1/2 at density 322, or -1 at 161, stiffness is exactly zero; with the
// next two its lower end is, and is not, at one width or the other.
const STIFFNESSES: [(&str, &[u8], f64, f64); 6] = [
    (
        "stiffness 0",
        b"\x04\x10\x11\xc3\x79\x37\xe0\x80\x00",
        322.0,
        22000000.0,
    ),
    (
        "stiffness down to 0 at 32",
        b"\x04\x10\x11\xc3\x79\x37\xce\xbc\x87",
        322.0,
        22000000.0,
    ),
    (
        "stiffness above 0 at 32",
        b"\x04\x10\x11\xc3\x79\x37\xce\xbc\x86",
        322.0,
        22000000.0,
    ),
    (
        "stiffness 0 at half the density",
        b"\x04\x10\x23\x86\xf2\x6f\xc1\x00\x00",
        161.0,
        11000000.0,
    ),
    (
        "stiffness down to 0 at 53",
        b"\x04\x10\x23\x86\xf2\x6f\xc0\xff\xff",
        161.0,
        11000000.0,
    ),
    (
        "stiffness above 0 at 53",
        b"\x04\x10\x23\x86\xf2\x6f\xc0\xff\xfe",
        161.0,
        11000000.0,
    ),
];

pub fn stiffnesses<W: Write>(output: &mut W, width: u64) -> io::Result<()> {
    for (label, table, density, target) in STIFFNESSES {
        let a = Asked::table(width, 38, label, table);
        a.density(output, "density check", 300.0, density, target, 1000000.0)?;
    }
    Ok(())
}
