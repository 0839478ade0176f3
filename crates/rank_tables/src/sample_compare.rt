// The samples against S-LOUDS, by a running count of ones.
ghost use Rattle.std.specs.Prelude.{◌≡◌, ◌*◌, ◌≤◌, ◌<◌, length};
ghost use Rattle.spec.specs.Bytes.{equal, blocks};
ghost use Rattle.bits.specs.Bits.{rank};
ghost use Rattle.rank_tables.specs.TableEntries.{sample_table};
ghost use Rattle.rank_tables.specs.Samples.{sampled};
ghost use Rattle.rank_tables.specs.Tables.{Held};

use super::words::{Counted, ones_among};
use bits::numbers::read32;
use bits::ranks::{bit_at, ones_before};
use image::SAMPLE_RATE;

// Whether entry t is there and is the position of the set bit number 64 t, counted from 0, which word q holds among the first n bits. So many set bits stand before the word.
// The position is tested itself: it lies in the word, its bit is set, and just 64 t set bits stand before it.
fn sample_valid(s: &[u8], n: usize, q: usize, before: usize, table: &[u8], t: usize) -> bool
    requires { Held s.now n q before t }
    ensures { result ≡ sampled s.now n table.now t }
{
    if table.len() < 4 * t + 4 {
        return false;
    }
    let p = read32(table, 4 * t);
    if p < 64 * q {
        return false;
    }
    let j = p - 64 * q;
    if 64 <= j {
        return false;
    }
    if n <= p {
        return false;
    }
    if ones_before(s, q, j) != SAMPLE_RATE * t - before {
        return false;
    }
    bit_at(s, p) == 1
}

// The ones among the first n bits, and whether the table holds the position of every 64th of them, the first among them.
// A word has at most 64 ones, so at most one of these stands in it.
pub fn count_samples(s: &[u8], n: usize, table: &[u8]) -> Counted
    requires { (n ≤ 8 * length s.now) × (n < 4294967296) }
    ensures { (result.ones ≡ rank s.now n) × (result.agrees ≡ equal table.now (sample_table s.now n (blocks 64 (rank s.now n)))) }
{
    let mut ones = 0usize; // the ones before the word
    let mut t = 0usize; // the next entry
    let mut agrees = true; // whether the entries before it are right
    for q in 0..n.div_ceil(64) {
        let before = ones;
        ones += ones_among(s, q, n);
        if SAMPLE_RATE * t < ones {
            agrees &= sample_valid(s, n, q, before, table, t);
            t += 1;
        }
    }
    let sized = 4 * t == table.len();
    Counted {
        ones,
        agrees: agrees & sized,
    }
}
