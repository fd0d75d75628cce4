// A proposal's five numbers, read from its forty bytes.
ghost use Rattle.std.specs.Prelude.{◌≡◌, ◌+◌, ◌<◌, ◌≤◌};
ghost use Rattle.std.specs.Float.Ieee.{of_bits};
ghost use Rattle.std.specs.Float.{binary64};
ghost use Rattle.line.specs.Proposal.{bytes_number, double_at, proposal_of};

// T, the two densities, and the two tolerances.
#[derive(Clone, Copy)]
pub struct Proposal {
    pub temperature: f64,
    pub liquid: f64,
    pub vapour: f64,
    pub pressure_tolerance: f64,
    pub gibbs_tolerance: f64,
}

pub fn read_proposal(bytes: &[u8; 40]) -> Proposal
    ensures { result ≡ proposal_of bytes.now }
{
    Proposal {
        temperature: double_at(bytes, 0),
        liquid: double_at(bytes, 8),
        vapour: double_at(bytes, 16),
        pressure_tolerance: double_at(bytes, 24),
        gibbs_tolerance: double_at(bytes, 32),
    }
}

fn double_at(bytes: &[u8; 40], at: usize) -> f64
    requires { at + 8 ≤ 40 }
    ensures { result ≡ double_at bytes.now at }
{
    double(word(bytes, at))
}

// The number that eight bytes write, most significant first.
fn word(bytes: &[u8; 40], at: usize) -> u64
    requires { at + 8 ≤ 40 }
    ensures { result ≡ bytes_number bytes.now at 8 }
{
    let mut n: u64 = 0;
    for i in 0..8 {
        n = n * 256 + u64::from(bytes[at + i]);
    }
    n
}

// The f64 of a bit pattern; every NaN's pattern gives the one NaN.
fn double(bits: u64) -> f64
    ensures { result ≡ of_bits binary64 bits }
{
    if 0x7FF0000000000000 < bits % 0x8000000000000000 {
        0.0 / 0.0
    } else {
        f64::from_bits(bits)
    }
}
