// A level from one before it, by select on S-LOUDS and rank on S-HasChild, or by rank on D-HasChild.
ghost use Rattle.std.specs.Prelude.{◌≡◌, ◌≤◌, ◌<◌};
ghost use Rattle.check_levels.specs.Levels.{LoudsValid, LevelOf, Behind};

use super::Level;
use bits::numbers::bytes_for;
use bits::parts::part;
use bits::ranks::rank_on;
use bits_select::select::select_from;
use image::{BitPos, FramedImage, NodeNum, ROW_BITS, ROW_BYTES};

// The level that starts at a dense node, or at the first sparse one, before which stand all branches of dense nodes: these the frame has counted.
fn dense_level(image: &FramedImage, from: Level, node: NodeNum) -> Level
    requires { LoudsValid image.now.bytes.now image.now.frame × LevelOf image.now.bytes.now image.now.frame from × Behind image.now.frame from node.0 × (node.0 ≤ image.now.frame.dense.nodes) }
    ensures { LevelOf image.now.bytes.now image.now.frame result × (result.node.0 ≡ node.0) }
{
    let f = image.frame;
    if node.0 == f.dense.nodes {
        return Level {
            node,
            entry: BitPos(0),
            branches: f.totals.children,
        };
    }
    let dc = part(image.bytes, f.dc, ROW_BYTES * f.dense.nodes);
    let branches = rank_on(dc, ROW_BITS * from.node.0, from.branches, ROW_BITS * node.0);
    Level {
        node,
        entry: BitPos(0),
        branches,
    }
}

// The level that starts at a sparse node.
fn sparse_level(image: &FramedImage, from: Level, node: NodeNum) -> Level
    requires { LoudsValid image.now.bytes.now image.now.frame × LevelOf image.now.bytes.now image.now.frame from × Behind image.now.frame from node.0 × (image.now.frame.dense.nodes < node.0) }
    ensures { LevelOf image.now.bytes.now image.now.frame result × (result.node.0 ≡ node.0) }
{
    let f = image.frame;
    let entries = f.sparse.entries;
    let sc = part(image.bytes, f.sc, bytes_for(entries));
    let sb = part(image.bytes, f.sb, bytes_for(entries));
    let starts = from.node.0.saturating_sub(f.dense.nodes);
    let entry = select_from(sb, entries, from.entry.0, starts, node.0 - f.dense.nodes);
    let children = from.branches.saturating_sub(f.totals.children);
    let branches = f.totals.children + rank_on(sc, from.entry.0, children, entry);
    Level {
        node,
        entry: BitPos(entry),
        branches,
    }
}

// The level that starts at a node, from a level at or before it.
pub fn level_at(image: &FramedImage, from: Level, node: NodeNum) -> Level
    requires { LoudsValid image.now.bytes.now image.now.frame × LevelOf image.now.bytes.now image.now.frame from × Behind image.now.frame from node.0 }
    ensures { LevelOf image.now.bytes.now image.now.frame result × (result.node.0 ≡ node.0) }
{
    if node.0 <= image.frame.dense.nodes {
        return dense_level(image, from, node);
    }
    sparse_level(image, from, node)
}
