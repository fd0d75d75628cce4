// The exponential of minus x: 257 terms, summed left to right, and 1 divided by their sum. Where the terms have become slight, what is left
// of the sum is known and taken at once.
ghost use Rattle.std.specs.Prelude.{◌≡◌, true, suc, ◌+◌, ◌-◌, ◌<◌};
ghost use Rattle.bracket.specs.Rules.{ends, stretched};
ghost use Rattle.bracket.specs.Held.{Held};
ghost use Rattle.series.specs.Exponential.{exp_total, expneg};
ghost use Rattle.series.specs.Terms.{Taken, terms_to};

use bracket::Bracket;

// Whether every step from here on only moves the sum's upper end to the next sheet number: the terms are above zero and no longer grow, and
// the power of two above term k lies below one unit of the sum's last place. Each term to come takes such a step, and so does the last one
// when it counts once more.
fn only_stretches(v: u64, x: Bracket, term: Bracket, sum: Bracket, k: u64) -> bool
    requires { Held v x × Taken (ends x) × (k < 256) × (record { term = term; sum = sum } ≡ terms_to (suc v) (ends x) k) }
    ensures { result ≡ true → exp_total (suc v) (ends x) ≡ stretched (suc v) (257 - k) sum }
{
    term.hi.e + v + 1 < sum.lo.e && x.hi.m != 0 && sheet::at_most(x.hi, sheet::whole(v, k + 1))
}

// The sum to 256, with the last term's upper end once more in its upper end. Term k + 1 is (term k times x) divided by k + 1.
fn total(v: u64, x: Bracket) -> Bracket
    requires { Held v x × Taken (ends x) }
    ensures { result ≡ exp_total (suc v) (ends x) }
{
    let one = bracket::whole(v, 1);
    let mut term = one;
    let mut sum = one;
    for k in 0..256 {
        if only_stretches(v, x, term, sum, k) {
            return bracket::stretched(v, sum, 257 - k);
        }
        let product = bracket::product(v, term, x);
        term = bracket::share(v, product, k + 1);
        sum = bracket::sum(v, sum, term);
    }
    bracket::add_last(v, sum, term)
}

// 1 divided by that.
pub fn expneg(v: u64, x: Bracket) -> Bracket
    requires { Held v x × Taken (ends x) }
    ensures { result ≡ expneg (suc v) (ends x) }
{
    let one = bracket::whole(v, 1);
    bracket::quotient(v, one, total(v, x))
}
