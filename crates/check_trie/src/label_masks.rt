// Masks of 64 labels: which are below the next one, and which are FF. Eight labels are compared at once, in lanes of 16 bits.
ghost use Rattle.std.specs.Prelude.{◌≡◌, ℕ, Bool, ◌+◌, ◌≤◌, ◌<◌, length};
ghost use Rattle.std.specs.Int.Bits.{bit_and};
ghost use Rattle.check_levels.specs.MaskLaws.{mask};
ghost use Rattle.check_trie.specs.WordEntries.{ascends, full};
ghost use Rattle.check_trie.specs.LaneLaws.{low_bytes, gathered, paired};

use bits::numbers::read64;

// The low byte of each lane.
const LOW_BYTES: u64 = 0x00ff_00ff_00ff_00ff;

// Bit 8 of each lane.
const CARRIES: u64 = 0x0100_0100_0100_0100;

// 1 in each lane.
const UNITS: u64 = 0x0001_0001_0001_0001;

// The byte whose even bits are the carries of one word's lanes, and whose odd bits are those of another's.
fn gather(even: u64, odd: u64) -> u64
    ensures { result ≡ gathered (paired even odd) }
{
    let t = ((CARRIES & even) >> 8) | ((CARRIES & odd) >> 7);
    255 & (t | (t >> 14) | (t >> 28) | (t >> 42))
}

// The bytes of a word at even positions, one to a lane.
fn even_bytes(w: u64) -> u64
    ensures { (result ≡ bit_and w low_bytes) × (result ≤ low_bytes) }
{
    w & LOW_BYTES
}

// The mask of those of the eight labels from at on that are below the next one: the sum of the next one and the label's complement carries.
fn ascents_of_eight(sl: &[u8], at: usize) -> u64
    requires { at + 8 < length sl.now }
    ensures { result ≡ mask (ascends sl.now at) 8 }
{
    let w = read64(sl, at);
    let even = even_bytes(w);
    let odd = even_bytes(w >> 8);
    let next = even_bytes(read64(sl, at + 1) >> 8);
    gather(odd + (LOW_BYTES - even), next + (LOW_BYTES - odd))
}

// The mask of those of the 64 labels from at on that are below the next one.
pub fn ascents(sl: &[u8], at: usize) -> u64
    requires { at + 64 < length sl.now }
    ensures { result ≡ mask (ascends sl.now at) 64 }
{
    mask_of_64(|i| ascents_of_eight(sl, i), at)
}

// The mask of those of the eight labels from at on that are FF: one more than FF carries.
fn full_of_eight(sl: &[u8], at: usize) -> u64
    requires { at + 8 ≤ length sl.now }
    ensures { result ≡ mask (full sl.now at) 8 }
{
    let w = read64(sl, at);
    let even = even_bytes(w);
    let odd = even_bytes(w >> 8);
    gather(even + UNITS, odd + UNITS)
}

// The mask of those of the 64 labels from at on that are FF.
pub fn full_labels(sl: &[u8], at: usize) -> u64
    requires { at + 64 ≤ length sl.now }
    ensures { result ≡ mask (full sl.now at) 64 }
{
    mask_of_64(|i| full_of_eight(sl, i), at)
}

// The mask of those of the 64 labels from at on that pass a test, by the masks of eight labels each.
fn mask_of_64<F: Fn(usize) -> u64>(eight: F, at: usize) -> u64
    ghost test: { ℕ → Bool }
    requires few { at + 64 < 18446744073709551616 }
    requires callable { (i : ℕ) → i ≤ 56 → F.pre eight (at + i) }
    requires masks { (i m : ℕ) → i ≤ 56 → F.post eight (at + i) m → m ≡ mask (λ k. test (at + i + k)) 8 }
    ensures { result ≡ mask (λ k. test (at + k)) 64 }
{
    let mut m = 0u64;
    let mut i = 64usize;
    while 0 < i {
        i -= 8;
        m = m * 256 + eight(at + i);
    }
    m
}
