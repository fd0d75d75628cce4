// One end of a bracket. Assumes nothing.
ghost use Rattle.std.specs.Prelude.{◌≡◌};
ghost use Rattle.exact.specs.Fraction.{◌≼◌};
ghost use Rattle.sheet.specs.Number.{value};
ghost use Rattle.sheet.specs.Range.{InRange};
ghost use Rattle.bracket.specs.Span.{side};
ghost use Rattle.bracket.specs.Rules.{ends};
ghost use Rattle.bracket.specs.Held.{Held};

use crate::Bracket;
use sheet::Sheet;

// The upper end for true, the lower one for false.
pub fn end(v: u64, upper: bool, b: Bracket) -> Sheet
    requires { Held v b }
    ensures { InRange v result × (value result ≡ side upper (ends b)) × (value b.lo ≼ value result) }
{
    if upper { b.hi } else { b.lo }
}
