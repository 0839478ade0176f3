// A rank table against the body that it counts, by a running sum of word counts.
ghost use Rattle.std.specs.Prelude.{◌≡◌, ◌*◌};
ghost use Rattle.spec.specs.Bytes.{equal, blocks};
ghost use Rattle.bits.specs.Bits.{rank};
ghost use Rattle.rank_tables.specs.TableEntries.{rank_table};
ghost use Rattle.rank_tables.specs.Tables.{Ranked};

use super::words::{Counted, ones_among};
use bits::numbers::{MODULUS_32, read32};

// The ones among the first n bits of the body, and whether each entry of the table is the number of ones before its block, modulo 2^32. A block has so many words.
pub fn count_ranks(body: &[u8], n: usize, table: &[u8], words: usize) -> Counted
    requires { Ranked body.now n table.now words }
    ensures { (result.ones ≡ rank body.now n) × (result.agrees ≡ equal table.now (rank_table (64 * words) body.now (blocks (64 * words) n))) }
{
    let mut ones = 0usize; // the ones before the word
    let mut b = 0usize; // the next entry
    let mut start = 0usize; // its block's first word
    let mut agrees = true; // whether the entries before it are right
    for q in 0..n.div_ceil(64) {
        let before = ones;
        ones += ones_among(body, q, n);
        if q == start {
            agrees &= read32(table, 4 * b) == before % MODULUS_32;
            b += 1;
            start += words;
        }
    }
    Counted { ones, agrees }
}
