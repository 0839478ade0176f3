// The 64-bit FNV-1a hash of a byte string: what the hash bits of a slot are taken from (document 02, order 4).

#![tactic(auto)]

ghost use Rattle.std.specs.Prelude.{◌≡◌, ◌*◌, ◌%◌, ◌^◌};
ghost use Rattle.spec.specs.Fnv.{offset_basis, prime, hash_step, hash};

use std::num::wrapping_add_u64;

// 2^32: each half of a 64-bit number is below it.
const HALF: u64 = 4294967296;

// The hash of the bytes that it has taken so far.
#[derive(Clone, Copy)]
pub struct Fnv1a {
    pub state: u64,
}

impl Fnv1a {
    // The state before the first byte.
    pub const OFFSET_BASIS: u64 = 0xcbf29ce484222325;

    // What the state is multiplied with at each byte.
    pub const PRIME: u64 = 0x100000001b3;

    // The low half of the prime.
    const PRIME_LOW: u64 = Self::PRIME % HALF;

    // The high half of the prime.
    const PRIME_HIGH: u64 = Self::PRIME / HALF;

    // The hash of no bytes.
    pub fn start() -> Self
        ensures { result.state ≡ offset_basis }
    {
        Self {
            state: Self::OFFSET_BASIS,
        }
    }

    // The hash after one byte more.
    pub fn step(self, byte: u8) -> Self
        ensures { result.state ≡ hash_step self.state byte }
    {
        Self {
            state: Self::times_prime(u64::from(byte) ^ self.state),
        }
    }

    // The product of a number and the prime modulo 2^64, from the products of their halves. That of the two high halves is a multiple of 2^64, and is left out.
    // Of these sums the compiler makes one multiplication, and of the method `wrapping_add` two and more, in twice the time.
    fn times_prime(x: u64) -> u64
        ensures { result ≡ x * prime % 2 ^ 64 }
    {
        let low = x % HALF;
        let high = x / HALF;
        let high_low = (high * Self::PRIME_LOW) << 32;
        let low_high = (low * Self::PRIME_HIGH) << 32;
        wrapping_add_u64(wrapping_add_u64(low * Self::PRIME_LOW, high_low), low_high)
    }
}

// The hash of a key, or of any other bytes.
pub fn hash(key: &[u8]) -> u64
    ensures { result ≡ hash key.now }
{
    let mut fnv = Fnv1a::start();
    for &byte in key {
        fnv = fnv.step(byte);
    }
    fnv.state
}
