// The powers of a bracket, each taken once: the rule's power n + 1 is its power n times the base.
ghost use Rattle.std.specs.Prelude.{suc, ◌≤◌};
ghost use Rattle.bracket.specs.Held.{Powers};
ghost use Rattle.quick.specs.Powers.{PowersTo};

use bracket::Bracket;
use sheet::Sheet;

// A bracket where a list has none.
pub const NOTHING: Bracket = Bracket {
    lo: Sheet::ZERO,
    hi: Sheet::ZERO,
};

// Those from 0 to n, n at most 63.
pub fn powers(v: u64, base: Bracket, n: u64) -> [Bracket; 64]
    requires { Powers v base n × (n ≤ 63) }
    ensures { PowersTo (suc v) base n result }
{
    let one = bracket::whole(v, 1);
    let mut list = [one; 64];
    for i in 0..n as usize {
        list[i + 1] = bracket::product(v, list[i], base);
    }
    list
}
