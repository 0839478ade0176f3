// A rank or a select by a finished table: the entry before it is read, and the ones are counted on from there. Used by the navigation and by the check of number 14.
ghost use Rattle.std.specs.Prelude.{◌≡◌, ◌*◌, ◌≤◌, ◌<◌};
ghost use Rattle.bits.specs.Bits.{rank, select};
ghost use Rattle.rank_tables.specs.Reading.{RankTable, SampleTable};

use bits::numbers::read32;
use bits::ranks::rank_from;
use bits_select::select::select_from;
use image::SAMPLE_RATE;

// The ones before bit k of the first n bits, by a table of those before each block of so many words.
pub fn rank_by_table<const WORDS: usize>(bits: &[u8], table: &[u8], n: usize, k: usize) -> usize
    requires { RankTable (64 * WORDS) n bits.now table.now × (0 < WORDS) × (WORDS ≤ 8) × (k ≤ n) }
    ensures { result ≡ rank bits.now k }
{
    if k == 0 {
        return 0;
    }
    let b = (k - 1) / (64 * WORDS);
    let before = read32(table, 4 * b);
    rank_from(bits, WORDS * b, before, k)
}

// The position of one number m, from 0, of the first n bits, by every 64th one's position, or n where there is no such one.
pub fn select_64(bits: &[u8], samples: &[u8], n: usize, total: usize, m: usize) -> usize
    requires { SampleTable n total bits.now samples.now }
    ensures { (result ≡ select bits.now n m) × (result ≤ n) }
{
    if m >= total {
        return n;
    }
    let t = m / SAMPLE_RATE;
    let from = read32(samples, 4 * t);
    select_from(bits, n, from, SAMPLE_RATE * t, m)
}
