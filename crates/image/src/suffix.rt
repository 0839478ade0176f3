// A key's suffix bits as a number, the first bit lowest: what a slot holds of a key, and what a key is compared by with a slot.
ghost use Rattle.std.specs.Prelude.{◌≡◌, ◌≤◌, length, get_or};
ghost use Rattle.spec.specs.Bytes.{low_first};
ghost use Rattle.spec.specs.Leaves.{bits_behind, hash_bits};

use bits::reverse::reversed;
use fnv::hash;

// Byte i of a key, 0 where the key has ended.
pub fn byte_or_zero(key: &[u8], i: usize) -> u8
    ensures { result ≡ get_or key.now i 0 }
{
    key.get(i).copied().unwrap_or(0)
}

// The n bits of a key behind its cut as a number, zeros where the key has ended. The high bit of each byte comes first.
pub fn real_number(key: &[u8], cut: usize, n: usize) -> usize
    requires { (cut ≤ length key.now) × (n ≤ 16) }
    ensures { result ≡ low_first (bits_behind n cut key.now) }
{
    let first = reversed(byte_or_zero(key, cut));
    let second = reversed(byte_or_zero(key, cut + 1));
    (first + 256 * second) % (1usize << n)
}

// The h low bits of a key's hash as a number. The hash is taken only if there are any.
pub fn hash_number(key: &[u8], h: usize) -> usize
    requires { h ≤ 16 }
    ensures { result ≡ low_first (hash_bits h key.now) }
{
    if h == 0 {
        return 0;
    }
    (hash(key) % (1u64 << h)) as usize
}
