// Powers of a bracket by recursion: the exponent falls. Assumes nothing.
ghost use Rattle.std.specs.Prelude.{◌≡◌, suc};
ghost use Rattle.bracket.specs.Rules.{power};
ghost use Rattle.bracket.specs.Held.{Powers};

use crate::Bracket;
use crate::products::product;
use crate::values::whole;

// No factor gives 1; the last of n factors multiplies the power of the others.
pub fn power(v: u64, b: Bracket, n: u64) -> Bracket
    requires { Powers v b n }
    ensures { result ≡ power (suc v) b n }
{
    if n == 0 {
        whole(v, 1)
    } else {
        product(v, power(v, b, n - 1), b)
    }
}
