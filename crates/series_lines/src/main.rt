// Reads arguments of the two series from standard input and writes each result as a line, for a comparison bit for bit. A record is eight
// words: the width (32 or 53), and 0 and a bracket of two sheet numbers for the exponential of minus it; or 1, two f64s, a liquid's density
// and a vapour's, and four words of zero for the logarithm of their ratio. A line is the result's six words. What the series do not take, or
// no width, is answered by zeros. Assumes nothing.
#![tactic(auto)]

ghost use Rattle.std.specs.Prelude.{◌≡◌, true};
ghost use Rattle.sheet.specs.Range.{Width};
ghost use Rattle.bracket.specs.Held.{Held};
ghost use Rattle.bracket.specs.Rules.{ends};
ghost use Rattle.series.specs.Pair.{Pair};
ghost use Rattle.series.specs.Terms.{Taken};
ghost use Rattle.series_lines.specs.End.{End};

use bracket::Bracket;
use sheet::Sheet;
use std::io;

// A series and its argument.
#[derive(Clone, Copy)]
enum Asked {
    Exponential(Bracket),
    Logarithm { liquid: f64, vapour: f64 },
}

impl From<[u64; 8]> for Asked {
    fn from(record: [u64; 8]) -> Asked {
        match record[1] {
            0 => Asked::Exponential(Bracket {
                lo: words::number(record[2], record[3], record[4]),
                hi: words::number(record[5], record[6], record[7]),
            }),
            _ => Asked::Logarithm {
                liquid: words::double(record[2]),
                vapour: words::double(record[3]),
            },
        }
    }
}

// Whether the number is an end that the exponential takes: zero, or from 2^-292 to 128, which are 2^v at the places 261852 - v and 262151 - v.
fn usable(v: u64, s: Sheet) -> bool
    requires { Width v }
    ensures { result ≡ true → End v s }
{
    let m = s.m;
    let e = s.e;
    if !words::usable(v, s) || s.neg {
        return false;
    }
    if m == 0 {
        return true;
    }
    if e == 262151 - v {
        return m == 1 << v;
    }
    261852 - v <= e && e < 262151 - v
}

// Whether the exponential takes the bracket.
fn taken(v: u64, b: Bracket) -> bool
    requires { Width v }
    ensures { result ≡ true → Held v b × Taken (ends b) }
{
    usable(v, b.lo) && usable(v, b.hi) && sheet::at_most(b.lo, b.hi)
}

// Whether the densities are accepted, and in order.
fn paired(liquid: f64, vapour: f64) -> bool
    ensures { result ≡ true → Pair liquid vapour }
{
    if !doubles::range::accepts_density(58, liquid)
        || !doubles::range::accepts_density(58, vapour)
    {
        return false;
    }
    doubles::range::at_most(vapour, liquid)
}

fn answer(width: u64, asked: Asked) -> Option<Bracket> {
    let v = words::digits_of(width)?;
    match asked {
        Asked::Exponential(x) if taken(v, x) => Some(series::expneg(v, x)),
        Asked::Logarithm { liquid, vapour } if paired(liquid, vapour) => {
            Some(series::ln_ratio(v, liquid, vapour))
        }
        _ => None,
    }
}

// A proved loop has to end, so it makes at most as many turns as no run uses up.
fn main(rt: HostRuntime) -> io::Result<()> {
    let mut input = rt.stdin();
    let mut output = rt.stdout();
    for _ in 0..u64::MAX {
        let Some(record) = words::record(&mut input)? else {
            break;
        };
        let ends = answer(record[0], Asked::from(record)).map(|b| [b.lo, b.hi]);
        words::answer_line(&mut output, ends)?;
    }
    Ok(())
}
