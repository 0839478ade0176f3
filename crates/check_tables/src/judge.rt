// The tables of an image against the bodies that they index: the ones of a body are counted in the pass that compares its table, number 15.
ghost use Rattle.std.specs.Prelude.{◌≡◌, ◌*◌};
ghost use Rattle.spec.specs.Bytes.{blocks};
ghost use Rattle.bits.specs.Bits.{rank, part};
ghost use Rattle.check_tables.specs.Tables.{RanksInside, SamplesInside, SparseCounted, holds_ranks, holds_samples};

use super::SparseCounts;
use bits::numbers::{blocks_for, bytes_for};
use bits::parts::part;
use image::{FramedImage, SAMPLE_RATE, SPARSE_BLOCK_WORDS};
use rank_tables::rank_compare::count_ranks;
use rank_tables::sample_compare::count_samples;
use rank_tables::words::Counted;

// The ones of the body at an offset, which has n bits, and whether the table at another holds its ranks, by blocks of so many words.
pub fn ranks_at(image: &[u8], at: usize, n: usize, table: usize, words: usize) -> Counted
    requires { RanksInside image.now at n table words }
    ensures { (result.ones ≡ rank (part image.now at (blocks 8 n)) n) × (result.agrees ≡ holds_ranks image.now at n table (64 * words)) }
{
    let blocks = blocks_for(64 * words, n);
    let body = part(image, at, bytes_for(n));
    let ranks = part(image, table, 4 * blocks);
    count_ranks(body, n, ranks, words)
}

// The ones of the body at an offset, which has n bits, and whether the table at another, of m bytes, holds its samples.
fn samples_at(image: &[u8], at: usize, n: usize, table: usize, m: usize) -> Counted
    requires { SamplesInside image.now at n table m }
    ensures { (result.ones ≡ rank (part image.now at (blocks 8 n)) n) × (result.agrees ≡ holds_samples image.now at n table m) }
{
    let body = part(image, at, bytes_for(n));
    let samples = part(image, table, m);
    count_samples(body, n, samples)
}

// The ones of SB and SC, and whether RS holds the ranks of SC, and TS the samples of SB.
pub fn count_sparse(image: &FramedImage) -> SparseCounts
    ensures { SparseCounted image.now.bytes.now image.now.frame result }
{
    let f = image.frame;
    let entries = f.sparse.entries;
    let samples = 4 * blocks_for(SAMPLE_RATE, f.sparse.nodes);
    let children = ranks_at(image.bytes, f.sc, entries, f.rs, SPARSE_BLOCK_WORDS);
    let starts = samples_at(image.bytes, f.sb, entries, f.ts, samples);
    SparseCounts {
        starts: starts.ones,
        children: children.ones,
        agrees: children.agrees && starts.agrees,
    }
}
