// splitmix64 by output number, so that any output is had without the ones before it.
ghost use Rattle.std.specs.Prelude.{◌≡◌, ◌<◌};
ghost use Rattle.grounds.specs.Splitmix.{multiplied, output};

const INCREMENT: u64 = 0x9E37_79B9_7F4A_7C15;

const FIRST_MULTIPLIER: u64 = 0xBF58_476D_1CE4_E5B9;

const SECOND_MULTIPLIER: u64 = 0x94D0_49BB_1331_11EB;

// z xor z shifted right, times a constant, modulo 2^64.
fn multiply(z: u64, shift: u32, multiplier: u64) -> u64
    requires { shift < 64 }
    ensures { result ≡ multiplied z shift multiplier }
{
    (z ^ (z >> shift)).wrapping_mul(multiplier)
}

// Output number `k`, counted from 0, of the generator with this seed.
pub fn splitmix64(seed: u64, k: u64) -> u64
    ensures { result ≡ output seed k }
{
    let z = seed.wrapping_add(k.wrapping_add(1).wrapping_mul(INCREMENT));
    let z = multiply(z, 30, FIRST_MULTIPLIER);
    let z = multiply(z, 27, SECOND_MULTIPLIER);
    z ^ (z >> 31)
}
