// One case through the public functions of `verdict`. A line: the width, the kind unless it is 38, who is asked and the case's label, then
// the number, the place, and the ends as 16 hexadecimal digits each.
use std::io;
use std::io::Write;
use verdict::{State, Tolerances};

// What is asked about. A case about an f64 shows its bits behind the label.
#[derive(Clone, Copy)]
pub struct Asked<'a> {
    width: u64,
    kind: u64,
    table: &'a [u8],
    label: &'a str,
    bits: Option<u64>,
}

impl<'a> Asked<'a> {
    pub fn table(width: u64, kind: u64, label: &'a str, table: &'a [u8]) -> Self {
        Asked {
            width,
            kind,
            table,
            label,
            bits: None,
        }
    }

    pub fn value(width: u64, kind: u64, label: &'a str, table: &'a [u8], bits: u64) -> Self {
        Asked {
            width,
            kind,
            table,
            label,
            bits: Some(bits),
        }
    }

    fn front<W: Write>(self, output: &mut W, who: &str) -> io::Result<()> {
        let label = self.label;
        write!(output, "{} ", self.width)?;
        if self.kind != 38 {
            write!(output, "{} ", self.kind)?;
        }
        match self.bits {
            Some(bits) => write!(output, "{who}, {label} ({bits:016x}):"),
            None => write!(output, "{who}, {label}:"),
        }
    }

    pub fn sheet<W: Write>(
        self,
        output: &mut W,
        who: &str,
        temperature: f64,
        density: f64,
    ) -> io::Result<()> {
        self.front(output, who)?;
        let state = State {
            temperature,
            density,
        };
        let answer = verdict::state_sheet(self.width, self.kind, self.table, state);
        write_values(output, &reading::of_sheet(answer))
    }

    pub fn density<W: Write>(
        self,
        output: &mut W,
        who: &str,
        temperature: f64,
        density: f64,
        target: f64,
        tolerance: f64,
    ) -> io::Result<()> {
        self.front(output, who)?;
        let state = State {
            temperature,
            density,
        };
        let answer = verdict::density_check(
            self.width, self.kind, self.table, state, target, tolerance,
        );
        write_values(output, &reading::of_check(answer))
    }

    pub fn pair<W: Write>(
        self,
        output: &mut W,
        who: &str,
        temperature: f64,
        liquid: f64,
        vapour: f64,
        pressure_tolerance: f64,
        gibbs_tolerance: f64,
    ) -> io::Result<()> {
        self.front(output, who)?;
        let state = State {
            temperature,
            density: liquid,
        };
        let tolerances = Tolerances {
            pressure: pressure_tolerance,
            gibbs: gibbs_tolerance,
        };
        let answer = verdict::pair_check(
            self.width, self.kind, self.table, state, vapour, tolerances,
        );
        write_values(output, &reading::of_check(answer))
    }

    // All three at a temperature.
    pub fn each<W: Write>(self, output: &mut W, temperature: f64) -> io::Result<()> {
        self.sheet(output, "state sheet", temperature, 1.0)?;
        self.density(output, "density check", temperature, 1.0, 0.0, 1000000.0)?;
        self.pair(
            output,
            "pair check",
            temperature,
            322.125,
            321.875,
            1000000.0,
            1000000.0,
        )
    }

    // All three where pressure is about the ceiling.
    pub fn ceiling<W: Write>(
        self,
        output: &mut W,
        temperature: f64,
        density: f64,
        most: f64,
    ) -> io::Result<()> {
        self.sheet(output, "state sheet", temperature, density)?;
        self.density(
            output,
            "density check",
            temperature,
            density,
            most,
            1000000.0,
        )?;
        self.pair(
            output,
            "pair check",
            temperature,
            density,
            1.0,
            1000000.0,
            1000000.0,
        )
    }
}

fn write_values<W: Write>(output: &mut W, values: &[u64]) -> io::Result<()> {
    if let [number, place, ends @ ..] = values {
        write!(output, " {number} {place}")?;
        words::more(output, ends)?;
    }
    words::end_line(output)
}
