// Single bits of byte slices, read and set, and counts of ones by 64-bit words. The builder, the check, the questions and the walk rest on these.
ghost use Rattle.std.specs.Prelude.{◌≡◌, ◌+◌, ◌*◌, ◌≤◌, ◌<◌, length};
ghost use Rattle.bits.specs.Bits.{bit_at, rank, with_bit, with_ones, with_number};

use super::numbers::{read_word, read64};

// Bit i of s.
pub fn bit_at(s: &[u8], i: usize) -> usize
    requires { i < 8 * length s.now }
    ensures { result ≡ bit_at s.now i }
{
    (usize::from(s[i / 8]) >> (i % 8)) % 2
}

// Bit i of out becomes 1, and every other bit stays.
pub fn set_bit(out: &mut [u8], i: usize)
    requires { i < 8 * length out.old }
    ensures { out.new ≡ with_bit out.old i }
{
    let b = i / 8;
    out[b] |= 1u8 << (i % 8);
}

// The ones of b are set in byte q of out, where out has that byte.
fn set_ones(out: &mut [u8], q: usize, b: usize)
    requires { b < 256 }
    ensures { out.new ≡ with_ones out.old q b }
{
    if q < out.len() {
        out[q] |= b as u8;
    }
}

// The ones of a number of at most 16 bits are set from bit i of out on, in three bytes at most.
pub fn set_number(out: &mut [u8], i: usize, v: usize)
    requires { v < 65536 }
    ensures { out.new ≡ with_number out.old i v }
{
    let q = i / 8;
    let w = v << (i % 8);
    set_ones(out, q, w % 256);
    set_ones(out, q + 1, w / 256 % 256);
    set_ones(out, q + 2, w / 65536 % 256);
}

// The ones in word q of s, that is, in bits 64 q to 64 q + 63. The word lies whole within s, so that nothing tests for the end of s.
pub fn ones_word(s: &[u8], q: usize) -> usize
    requires { q * 8 + 8 ≤ length s.now }
    ensures { (rank s.now (64 * q + 64) ≡ rank s.now (64 * q) + result) × (result ≤ 64) }
{
    read64(s, q * 8).count_ones() as usize
}

// The ones in the first j bits of word q of s.
pub fn ones_before(s: &[u8], q: usize, j: usize) -> usize
    requires { (q * 8 ≤ length s.now) × (j < 64) }
    ensures { (rank s.now (64 * q + j) ≡ rank s.now (64 * q) + result) × (result ≤ j) }
{
    (read_word(s, q) % (1u64 << j)).count_ones() as usize
}

// The ones of s from word `from` on and before bit k.
pub fn ones_between(s: &[u8], from: usize, k: usize) -> usize
    requires { (k ≤ 8 * length s.now) × (64 * from ≤ k) }
    ensures { rank s.now k ≡ rank s.now (64 * from) + result }
{
    let mut r = 0usize;
    for q in from..k / 64 {
        r += ones_word(s, q);
    }
    r + ones_before(s, k / 64, k % 64)
}

// The ones before bit k of s, counted on from word `from`, before which stand `before` ones.
pub fn rank_from(s: &[u8], from: usize, before: usize, k: usize) -> usize
    requires { (k ≤ 8 * length s.now) × (64 * from ≤ k) × (before ≡ rank s.now (64 * from)) }
    ensures { result ≡ rank s.now k }
{
    before + ones_between(s, from, k)
}

// The ones among the first n bits of s.
pub fn ones_of(s: &[u8], n: usize) -> usize
    requires { n ≤ 8 * length s.now }
    ensures { result ≡ rank s.now n }
{
    rank_from(s, 0, 0, n)
}

// The ones before bit k of s, counted on from bit `from`, before which stand `before` ones.
pub fn rank_on(s: &[u8], from: usize, before: usize, k: usize) -> usize
    requires { (k ≤ 8 * length s.now) × (from ≤ k) × (before ≡ rank s.now from) }
    ensures { result ≡ rank s.now k }
{
    let word = from / 64;
    rank_from(s, word, before - ones_before(s, word, from % 64), k)
}
