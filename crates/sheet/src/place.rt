// The rounding of digits at a place, with word of what was cut below them, to v + 1 bits. The count of leading zeros says how far they
// move, and they move at once. Assumes nothing.
ghost use Rattle.std.specs.Prelude.{◌≡◌, true, suc, ◌+◌, ◌^◌, ◌≤◌, ◌<◌};
ghost use Rattle.sheet.specs.Magnitude.{finish};
ghost use Rattle.sheet.specs.Number.{signed, Digits};
ghost use Rattle.sheet.specs.Round.{away};
ghost use Rattle.sheet.specs.Range.{Width};
ghost use Rattle.sheet.specs.Steps.{Keeps, Ready, Movable, Moved, CutBy, Loose, Normalised, Carried, Rounds};

use crate::Sheet;

// Digits so far, whether anything was cut below them, and their place.
#[derive(Clone, Copy)]
pub struct Found {
    pub m: u64,
    pub sticky: bool,
    pub e: u64,
}

// The digits go up by s places within a word, and the last u are cut off: u - s places fewer, or s - u more.
fn moved(x: Found, s: u64, u: u64) -> Found
    requires { Movable s u x }
    ensures { Moved s u x result }
{
    let n = x.m << s;
    let m = n >> u;
    Found {
        m,
        sticky: m << u != n || x.sticky,
        e: x.e + u - s,
    }
}

// The last t places are cut off: where the place is given, as that of a greater addend, and the digits have no say.
pub fn cut(x: Found, t: u64) -> Found
    requires { (t < 64) × (x.e + t < 2 ^ 64) }
    ensures { CutBy t x result }
{
    moved(x, 0, t)
}

// v + 1 digits, or fewer at the last place. The digits go to the top of a word, or as far up as the last place allows, and what then stands
// below v + 1 of them is cut off; where their place is far below the last, they are only cut.
pub fn normalised(x: Found, v: u64, last: u64) -> Found
    requires { Loose v last x }
    ensures { Normalised v last x result }
{
    let u = 63 - v;
    if x.m == 0 {
        Found { e: last, ..x }
    } else if x.e + u < last {
        cut(x, last - x.e)
    } else {
        let s = u64::from(x.m.leading_zeros()).min(x.e + u - last);
        moved(x, s, u)
    }
}

// Digits that may have gone past v + 1: past the greatest of them comes the least, one place up.
pub fn carried(v: u64, neg: bool, m: u64, e: u64) -> Sheet
    requires { Width v × (m < 2 ^ suc (suc v)) × (e < 2 ^ 63) }
    ensures { Carried v neg m e result }
{
    let c = m >> (v + 1);
    Sheet {
        neg,
        m: m - (c << v),
        e: e + c,
    }
}

// The next sheet number in magnitude.
fn next(v: u64, neg: bool, m: u64, e: u64) -> Sheet
    requires { Width v × (m < 2 ^ suc v) × (e < 2 ^ 63) }
    ensures { result ≡ signed neg (finish true true (suc v) (record { m = m; e = e })) }
{
    let n = m + 1;
    let full = 1 << (v + 1);
    if n < full {
        Sheet { neg, m: n, e }
    } else {
        Sheet {
            neg,
            m: n / 2,
            e: e + 1,
        }
    }
}

// A magnitude with its sign; zero has none.
pub fn signed(neg: bool, m: u64, e: u64) -> Sheet
    ensures { result ≡ signed neg (record { m = m; e = e }) }
{
    Sheet {
        neg: neg && m != 0,
        m,
        e,
    }
}

// Digits of the spelling are rounded: one more where something was cut and the direction goes away from zero.
// Stays: no `up != neg`, of which the compiler made a jump that is often guessed wrong; so the direction is asked first, then the sign.
fn finished(v: u64, up: bool, neg: bool, x: Found) -> Sheet
    requires { Width v × (x.m < 2 ^ suc v) × (x.e < 2 ^ 63) }
    ensures { result ≡ signed neg (finish (away up neg) x.sticky (suc v) (record { m = x.m; e = x.e })) }
{
    if x.sticky {
        if up {
            if neg {
                return signed(neg, x.m, x.e);
            }
            return next(v, neg, x.m, x.e);
        }
        if neg {
            return next(v, neg, x.m, x.e);
        }
    }
    signed(neg, x.m, x.e)
}

// The same where no digit is missing, so that there is no zero to look for.
// Stays: tried without it; looking for a zero each time costs the bench program 5 in 100 more instructions.
fn ended(v: u64, up: bool, neg: bool, x: Found) -> Sheet
    requires { Width v × Digits v x.m × (x.e < 2 ^ 63) }
    ensures { result ≡ signed neg (finish (away up neg) x.sticky (suc v) (record { m = x.m; e = x.e })) }
{
    if up != neg && x.sticky {
        next(v, neg, x.m, x.e)
    } else {
        Sheet {
            neg,
            m: x.m,
            e: x.e,
        }
    }
}

// Digits at a place, with word of what was cut below, rounded to v + 1 bits.
// Stays: m, sticky and e one by one, here and in the two below: as a `Found` each of the nine calls would take six lines for one.
pub fn rounded(v: u64, up: bool, neg: bool, m: u64, sticky: bool, e: u64) -> Sheet
    requires { Width v × Ready v (record { m = m; sticky = sticky; e = e }) }
    ensures { Rounds up neg m sticky e (suc v) result }
{
    let x = Found { m, sticky, e };
    let y = normalised(x, v, 0);
    finished(v, up, neg, y)
}

// Some digits, far above the last place: they can go to the top of a word.
pub fn topped(v: u64, up: bool, neg: bool, m: u64, sticky: bool, e: u64) -> Sheet
    requires { Width v × Ready v (record { m = m; sticky = sticky; e = e }) × (0 < m) × (64 ≤ e) }
    ensures { Rounds up neg m sticky e (suc v) result }
{
    let x = Found { m, sticky, e };
    let y = moved(x, u64::from(m.leading_zeros()), 63 - v);
    ended(v, up, neg, y)
}

// The last digit is cut where there is one more than v + 1.
fn fitted(v: u64, x: Found) -> Found
    requires { Width v × (2 ^ v ≤ x.m) × (x.m < 2 ^ suc (suc v)) × (x.e ≤ 2 ^ 62) }
    ensures { Digits v result.m × (result.e ≤ x.e + 1) × Keeps x result }
{
    let full = 1 << (v + 1);
    if x.m < full { x } else { cut(x, 1) }
}

// v + 1 digits or one more, as products and quotients have them: at most one is cut.
pub fn trimmed(v: u64, up: bool, neg: bool, m: u64, sticky: bool, e: u64) -> Sheet
    requires { Width v × (2 ^ v ≤ m) × (m < 2 ^ suc (suc v)) × (e ≤ 2 ^ 62) }
    ensures { Rounds up neg m sticky e (suc v) result }
{
    let x = Found { m, sticky, e };
    let y = fitted(v, x);
    ended(v, up, neg, y)
}
