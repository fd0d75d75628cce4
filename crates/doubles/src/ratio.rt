// The whole power of two in the ratio of two densities.
ghost use Rattle.std.specs.Prelude.{◌≡◌, T};
ghost use Rattle.exact.specs.Fraction.{leq};
ghost use Rattle.kind.specs.Kind.{widest};
ghost use Rattle.doubles.specs.Double.{exact_of};
ghost use Rattle.doubles.specs.Range.{accepted_density};
ghost use Rattle.doubles.specs.Ratio.{ratio_exponent};

// Doubling an f64 in this range is exact. Densities of either kind are taken.
pub fn ratio_exponent(liquid: f64, vapour: f64) -> u64
    requires liquid_accepted { T (accepted_density widest liquid) }
    requires vapour_accepted { T (accepted_density widest vapour) }
    requires in_order { T (leq (exact_of vapour) (exact_of liquid)) }
    ensures { result ≡ ratio_exponent (exact_of liquid) (exact_of vapour) }
{
    let mut v = vapour;
    let mut k = 0;
    while v * 2.0 <= liquid {
        v *= 2.0;
        k += 1;
    }
    k
}
