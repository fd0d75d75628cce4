// Tables of every length about the line, terms that just keep or just break a rule, and the ceiling of pressure.
ghost use Rattle.std.specs.Prelude.{◌<◌, length};

use crate::EASY;
use crate::asked::Asked;
use std::io;
use std::io::Write;

pub fn lengths<W: Write>(output: &mut W, width: u64) -> io::Result<()> {
    let bytes = filled(&EASY);
    for (label, table) in [
        ("table of 9 bytes", &bytes[..9]),
        ("table of 576 bytes", &bytes[..576]),
        ("table of 0 bytes", &bytes[..0]),
        ("table of 8 bytes", &bytes[..8]),
        ("table of 10 bytes", &bytes[..10]),
        ("table of 577 bytes", &bytes[..577]),
        ("table of 585 bytes", &bytes[..585]),
    ] {
        Asked::table(width, 38, label, table).each(output, 300.0)?;
    }
    Ok(())
}

// A term's bytes over and over.
pub fn filled(term: &[u8]) -> [u8; 780]
    requires { 0 < length term.now }
{
    let mut bytes = [0u8; 780];
    for (i, byte) in bytes.iter_mut().enumerate() {
        *byte = term[i % term.len()];
    }
    bytes
}

// One term with coefficient 10^-16 and d 1, but for what the label says; and the place of the first of two.
const TERMS: [(&str, &[u8]); 8] = [
    ("t 24", b"\x07\x00\x00\x00\x00\x00\x00\x00\x01"),
    ("t 25", b"\x07\x20\x00\x00\x00\x00\x00\x00\x01"),
    ("magnitude 10^17", b"\x04\x01\x63\x45\x78\x5d\x8a\x00\x00"),
    (
        "magnitude 10^17 + 1",
        b"\x04\x01\x63\x45\x78\x5d\x8a\x00\x01",
    ),
    ("magnitude 1", b"\x04\x00\x00\x00\x00\x00\x00\x00\x01"),
    ("magnitude 0", b"\x04\x00\x00\x00\x00\x00\x00\x00\x00"),
    ("d 0", b"\x00\x00\x00\x00\x00\x00\x00\x00\x01"),
    (
        "terms 2 and 3 broken",
        b"\x04\x00\x00\x00\x00\x00\x00\x00\x01\x00\x00\x00\x00\x00\x00\x00\x00\x01\x04\x00\x00\x00\x00\x00\x00\x00\x00",
    ),
];

pub fn terms<W: Write>(output: &mut W, width: u64) -> io::Result<()> {
    for (label, table) in TERMS {
        Asked::table(width, 38, label, table).each(output, 300.0)?;
    }
    Ok(())
}

// One term c 0, d 1, t 0 whose last unit takes the upper end of pressure from exactly 10^9 to the next sheet number, at one width or the
// other; and the temperature.
const CEILINGS: [(&str, &[u8], f64); 4] = [
    (
        "up to 10^9 at 32",
        b"\x04\x00\x03\x12\x4a\xf2\x1a\x85\x9a",
        1250.0,
    ),
    (
        "up to 10^9 + 1/4 at 32",
        b"\x04\x00\x03\x12\x4a\xf2\x1a\x85\x9b",
        1250.0,
    ),
    (
        "up to 10^9 at 53",
        b"\x04\x00\x28\xec\x62\xdf\x05\x35\x62",
        300.0,
    ),
    (
        "up to 10^9 + 2^-23 at 53",
        b"\x04\x00\x28\xec\x62\xdf\x05\x35\x63",
        300.0,
    ),
];

pub fn ceilings<W: Write>(output: &mut W, width: u64) -> io::Result<()> {
    for (label, table, t) in CEILINGS {
        Asked::table(width, 38, label, table).ceiling(output, t, 1288.0, 1000000000.0)?;
    }
    Ok(())
}

// The table is asked before the temperature.
pub fn empty<W: Write>(output: &mut W, width: u64, kind: u64) -> io::Result<()> {
    Asked::table(width, kind, "empty table, T NaN", b"").each(output, 0.0 / 0.0)
}
