// Ranks and levels of sparse nodes by the tables, where these are known to be right.
ghost use Rattle.std.specs.Prelude.{◌≡◌, ◌≤◌, ◌<◌};
ghost use Rattle.bits.specs.Bits.{rank, select};
ghost use Rattle.check_levels.specs.Bodies.{sc_body, sb_body};
ghost use Rattle.check_levels.specs.Levels.{LevelOf, node_count};
ghost use Rattle.check_levels.specs.Indexed.{Indexed};

use super::Level;
use bits::numbers::{blocks_for, bytes_for};
use bits::parts::part;
use image::{BitPos, FramedImage, NodeNum, SAMPLE_RATE, SPARSE_BLOCK_BITS, SPARSE_BLOCK_WORDS};
use rank_tables::read::{rank_by_table, select_64};

// Where sparse node m, counted from 0 among the sparse ones, begins: the search starts at the sample before it.
fn first_entry(image: &FramedImage, m: usize) -> BitPos
    requires { Indexed image.now.bytes.now image.now.frame }
    ensures { result.0 ≡ select (sb_body image.now.bytes.now image.now.frame) image.now.frame.sparse.entries m }
{
    let f = image.frame;
    let entries = f.sparse.entries;
    let nodes = f.sparse.nodes;
    let sb = part(image.bytes, f.sb, bytes_for(entries));
    let samples = part(image.bytes, f.ts, 4 * blocks_for(SAMPLE_RATE, nodes));
    BitPos(select_64(sb, samples, entries, nodes, m))
}

// The sparse entries that continue before the one at a position, counted on from the rank of its block.
pub fn children_before(image: &FramedImage, at: BitPos) -> usize
    requires { Indexed image.now.bytes.now image.now.frame × (at.0 < image.now.frame.sparse.entries) }
    ensures { result ≡ rank (sc_body image.now.bytes.now image.now.frame) at.0 }
{
    let f = image.frame;
    let entries = f.sparse.entries;
    let sc = part(image.bytes, f.sc, bytes_for(entries));
    let ranks = part(
        image.bytes,
        f.rs,
        4 * blocks_for(SPARSE_BLOCK_BITS, entries),
    );
    rank_by_table::<SPARSE_BLOCK_WORDS>(sc, ranks, entries, at.0)
}

// The level that starts at a sparse node.
pub fn level_by_tables(image: &FramedImage, node: NodeNum) -> Level
    requires { Indexed image.now.bytes.now image.now.frame × (image.now.frame.dense.nodes ≤ node.0) × (node.0 < node_count image.now.frame) }
    ensures { LevelOf image.now.bytes.now image.now.frame result × (result.node.0 ≡ node.0) }
{
    let f = image.frame;
    let entry = first_entry(image, node.0 - f.dense.nodes);
    let branches = f.totals.children + children_before(image, entry);
    Level {
        node,
        entry,
        branches,
    }
}
