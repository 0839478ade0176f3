// Numbers of four and of eight bytes in a slice, the low byte first, and how many blocks hold so many bits.
ghost use Rattle.std.specs.Prelude.{◌≡◌, ◌+◌, ◌*◌, ◌^◌, ◌≤◌, ◌<◌, length, drop};
ghost use Rattle.spec.specs.Bytes.{blocks, from32, le32};
ghost use Rattle.bits.specs.Bits.{word, overlaid};

// 2^32: a number of four bytes is below it, and four bytes hold a larger number modulo it.
pub const MODULUS_32: usize = 4294967296;

// How many blocks of w bits hold n bits. The last block may not be full.
pub fn blocks_for(w: usize, n: usize) -> usize
    requires { (0 < w) × (w ≤ 512) × (n < 2 ^ 63) }
    ensures { result ≡ blocks w n }
{
    n.div_ceil(w)
}

// How many bytes hold so many bits. The last byte may not be full.
pub fn bytes_for(bits: usize) -> usize
    ensures { result ≡ blocks 8 bits }
{
    bits.div_ceil(8)
}

// The number in the four bytes of s from at.
pub fn read32(s: &[u8], at: usize) -> usize
    requires { at + 4 ≤ length s.now }
    ensures { (result ≡ from32 (drop at s.now)) × (result < 4294967296) }
{
    u32::from_le_bytes([s[at], s[at + 1], s[at + 2], s[at + 3]]) as usize
}

// The low four bytes of v go to s from at, and all else stays.
pub fn write32(s: &mut [u8], at: usize, v: usize)
    requires { at + 4 ≤ length s.old }
    ensures { s.new ≡ overlaid s.old at (le32 v) }
{
    s[at..at + 4].copy_from_slice(&((v % MODULUS_32) as u32).to_le_bytes());
}

// The number in the eight bytes of s from at.
pub fn read64(s: &[u8], at: usize) -> u64
    requires { at + 8 ≤ length s.now }
    ensures { result ≡ word s.now at }
{
    u64::from_le_bytes([
        s[at],
        s[at + 1],
        s[at + 2],
        s[at + 3],
        s[at + 4],
        s[at + 5],
        s[at + 6],
        s[at + 7],
    ])
}

// The number in the bytes of s from at to its end, which are fewer than eight.
fn read_end(s: &[u8], at: usize) -> u64
    requires { (at ≤ length s.now) × (length s.now < at + 8) }
    ensures { result ≡ word s.now at }
{
    let mut w = 0u64;
    for i in (at..s.len()).rev() {
        w = w * 256 + u64::from(s[i]);
    }
    w
}

// The number in the eight bytes of s from at, zeros where s has ended.
pub fn read_from(s: &[u8], at: usize) -> u64
    requires { at ≤ length s.now }
    ensures { result ≡ word s.now at }
{
    if s.len() - at < 8 {
        return read_end(s, at);
    }
    read64(s, at)
}

// Word q of s, that is, bits 64 q to 64 q + 63, zeros where s has ended.
pub fn read_word(s: &[u8], q: usize) -> u64
    requires { q * 8 ≤ length s.now }
    ensures { result ≡ word s.now (q * 8) }
{
    read_from(s, q * 8)
}
