// The ones in a word, and what a pass over the words of a body finds, for the loops that compare a table with its body.
ghost use Rattle.std.specs.Prelude.{◌≡◌, ◌+◌, ◌*◌, ◌≤◌, ◌<◌, min, length};
ghost use Rattle.bits.specs.Bits.{rank};

use bits::ranks::{ones_before, ones_word};

// What a pass over a body finds: its ones, and whether its table is right.
#[derive(Clone, Copy)]
pub struct Counted {
    pub ones: usize,
    pub agrees: bool,
}

// The number of ones in word q of s that stand among the first n bits of s.
// Where all words are whole, as in the bodies of the dense nodes, the compiler sees that the first test fails, and leaves it out of a loop.
pub fn ones_among(s: &[u8], q: usize, n: usize) -> usize
    requires { (n ≤ 8 * length s.now) × (64 * q < n) }
    ensures { (rank s.now (min (64 * q + 64) n) ≡ rank s.now (64 * q) + result) × (result ≤ 64) }
{
    if n % 64 != 0 && q == n / 64 {
        return ones_before(s, q, n % 64);
    }
    ones_word(s, q)
}
