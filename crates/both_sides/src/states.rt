// Temperatures and densities at the ends of their ranges, one f64 outside, and not finite.
use crate::EASY;
use crate::asked::Asked;
use std::io;
use std::io::Write;

const TEMPERATURES: [(&str, u64); 11] = [
    ("T 273", 0x4071100000000000),
    ("T next under 273", 0x40710FFFFFFFFFFF),
    ("T 273.05", 0x407110CCCCCCCCCD),
    ("T 273.16", 0x4071128F5C28F5C3),
    ("T next under 273.16", 0x4071128F5C28F5C2),
    ("T -273.16", 0xC071128F5C28F5C3),
    ("T 1273", 0x4093E40000000000),
    ("T next above 1273", 0x4093E40000000001),
    ("T NaN", 0x7FF8000000000000),
    ("T infinity", 0x7FF0000000000000),
    ("T -infinity", 0xFFF0000000000000),
];

const DENSITIES: [(&str, u64); 7] = [
    ("density 1/1024", 0x3F50000000000000),
    ("density next under 1/1024", 0x3F4FFFFFFFFFFFFF),
    ("density 1288", 0x4094200000000000),
    ("density next above 1288", 0x4094200000000001),
    ("density NaN", 0x7FF8000000000000),
    ("density infinity", 0x7FF0000000000000),
    ("density -infinity", 0xFFF0000000000000),
];

pub fn temperatures<W: Write>(output: &mut W, width: u64) -> io::Result<()> {
    for (label, bits) in TEMPERATURES {
        Asked::value(width, 38, label, &EASY, bits).each(output, words::double(bits))?;
    }
    Ok(())
}

pub fn densities<W: Write>(output: &mut W, width: u64) -> io::Result<()> {
    for (label, bits) in DENSITIES {
        let rho = words::double(bits);
        let a = Asked::value(width, 38, label, &EASY, bits);
        a.sheet(output, "state sheet", 300.0, rho)?;
        a.density(output, "density check", 300.0, rho, 0.0, 1000000.0)?;
        let liquid = "pair check's liquid";
        a.pair(output, liquid, 300.0, rho, 321.875, 1000000.0, 1000000.0)?;
        let vapour = "pair check's vapour";
        a.pair(output, vapour, 300.0, 322.125, rho, 1000000.0, 1000000.0)?;
    }
    Ok(())
}
