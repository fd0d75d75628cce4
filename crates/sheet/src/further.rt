// The sheet number so many further on: one step adds one to the last digit, and past the greatest the place goes up. Assumes nothing.
ghost use Rattle.std.specs.Prelude.{◌≡◌, suc, ◌^◌, ◌≤◌};
ghost use Rattle.sheet.specs.Range.{InRange};
ghost use Rattle.sheet.specs.Onward.{onward};

use crate::Sheet;
use crate::place::carried;

// The digits count the steps, and may carry once.
pub fn onward(v: u64, s: Sheet, n: u64) -> Sheet
    requires { InRange v s × (n ≤ 2 ^ v) }
    ensures { result ≡ onward (suc v) n s }
{
    carried(v, s.neg, s.m + n, s.e)
}
