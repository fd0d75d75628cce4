// The card's profile: which temperatures and densities it takes.
ghost use Rattle.std.specs.Prelude.{◌≡◌};
ghost use Rattle.virial.specs.Profile.{profile_temperature, profile_density};

// Stays: one function a quantity: each has a rule of its own to meet, which names the same limits.
pub fn takes_temperature(t: f64) -> bool
    ensures { result ≡ profile_temperature t }
{
    doubles::range::lies_within(t, 273.0, 1123.0)
}

// From 1/1024.
pub fn takes_density(rho: f64) -> bool
    ensures { result ≡ profile_density rho }
{
    doubles::range::lies_within(rho, 0.0009765625, 55.0)
}
