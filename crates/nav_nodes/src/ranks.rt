// Ranks and starts over an accepted image: the ones before a position, by its tables, and where a sparse node starts. Navigation is made of these.
ghost use Rattle.std.specs.Prelude.{◌≡◌, ◌+◌, ◌-◌, ◌*◌, ◌≤◌, ◌<◌, length, drop};
ghost use Rattle.bits.specs.Bits.{rank, select};
ghost use Rattle.rank_tables.specs.Reading.{RankTable};

use bits_select::select::next_one;
use image::{AcceptedImage, BitPos, DENSE_BLOCK_WORDS, NodeNum, ROW_BITS, SPARSE_BLOCK_WORDS};
use rank_tables::read::{rank_by_table, select_64};

// The ones before bit k of the n bits of the body at an offset, by the table of those before each block of 64 at another.
fn rank_at(image: &[u8], body: usize, table: usize, n: usize, k: usize) -> usize
    requires { (body ≤ length image.now) × (table ≤ length image.now) × RankTable 64 n (drop body image.now) (drop table image.now) × (k ≤ n) }
    ensures { result ≡ rank (drop body image.now) k }
{
    rank_by_table::<DENSE_BLOCK_WORDS>(&image[body..], &image[table..], n, k)
}

// The labels before a bit of DL.
pub fn label_rank(image: &AcceptedImage, at: BitPos) -> usize
    requires { at.0 ≤ 256 * image.now.frame.dense.nodes }
    ensures { result ≡ rank (drop image.now.frame.dl image.now.bytes.now) at.0 }
{
    rank_at(
        image.bytes,
        image.frame.dl,
        image.frame.rl,
        ROW_BITS * image.frame.dense.nodes,
        at.0,
    )
}

// The continuing branches before a bit of DC.
pub fn child_rank(image: &AcceptedImage, at: BitPos) -> usize
    requires { at.0 ≤ 256 * image.now.frame.dense.nodes }
    ensures { result ≡ rank (drop image.now.frame.dc image.now.bytes.now) at.0 }
{
    rank_at(
        image.bytes,
        image.frame.dc,
        image.frame.rc,
        ROW_BITS * image.frame.dense.nodes,
        at.0,
    )
}

// The exact leaves among the dense nodes before node m.
pub fn exact_rank(image: &AcceptedImage, m: NodeNum) -> usize
    requires { m.0 ≤ image.now.frame.dense.nodes }
    ensures { result ≡ rank (drop image.now.frame.dp image.now.bytes.now) m.0 }
{
    rank_at(
        image.bytes,
        image.frame.dp,
        image.frame.rp,
        image.frame.dense.nodes,
        m.0,
    )
}

// The continuing entries before an entry of SC.
pub fn entry_rank(image: &AcceptedImage, at: BitPos) -> usize
    requires { at.0 ≤ image.now.frame.sparse.entries }
    ensures { result ≡ rank (drop image.now.frame.sc image.now.bytes.now) at.0 }
{
    rank_by_table::<SPARSE_BLOCK_WORDS>(
        &image.bytes[image.frame.sc..],
        &image.bytes[image.frame.rs..],
        image.frame.sparse.entries,
        at.0,
    )
}

// Where sparse node m starts, or the end of the entries where there is no such one.
pub fn node_start(image: &AcceptedImage, m: NodeNum) -> BitPos
    requires { image.now.frame.dense.nodes ≤ m.0 }
    ensures { (result.0 ≡ select (drop image.now.frame.sb image.now.bytes.now) image.now.frame.sparse.entries (m.0 - image.now.frame.dense.nodes)) × (result.0 ≤ image.now.frame.sparse.entries) }
{
    BitPos(select_64(
        &image.bytes[image.frame.sb..],
        &image.bytes[image.frame.ts..],
        image.frame.sparse.entries,
        image.frame.sparse.nodes,
        m.0 - image.frame.dense.nodes,
    ))
}

// The first start of a sparse node behind an entry, or the end of the entries where there is no such one.
pub fn next_start(image: &AcceptedImage, at: BitPos) -> BitPos
    requires { at.0 < image.now.frame.sparse.entries }
    ensures { (result.0 ≡ select (drop image.now.frame.sb image.now.bytes.now) image.now.frame.sparse.entries (rank (drop image.now.frame.sb image.now.bytes.now) (at.0 + 1))) × (result.0 ≤ image.now.frame.sparse.entries) }
{
    BitPos(next_one(
        &image.bytes[image.frame.sb..],
        image.frame.sparse.entries,
        at.0 + 1,
    ))
}
