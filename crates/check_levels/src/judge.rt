// Number 14's tests of the levels: each level ends where the next one starts, one behind the branches that continue before the end of the last.
ghost use Rattle.std.specs.Prelude.{◌≡◌, ◌≤◌, ◌<◌};
ghost use Rattle.check_tables.specs.Tables.{sparse_agrees};
ghost use Rattle.check_levels.specs.Levels.{LoudsValid, LevelOf, node_count, levels_valid};

use super::Level;
use super::step::level_at;
use super::tables::level_by_tables;
use image::{BitPos, FramedImage, MAX_LEVELS, NodeNum};

// The level that starts at a node, by the tables of the sparse bodies where these are right, else counted on from a level at or before it.
pub fn next_level(image: &FramedImage, agrees: bool, from: Level, node: NodeNum) -> Level
    requires { LoudsValid image.now.bytes.now image.now.frame × (agrees ≡ sparse_agrees image.now.bytes.now image.now.frame) × LevelOf image.now.bytes.now image.now.frame from × (from.node.0 ≤ node.0) × (node.0 < node_count image.now.frame) }
    ensures { LevelOf image.now.bytes.now image.now.frame result × (result.node.0 ≡ node.0) }
{
    if agrees && image.frame.dense.nodes <= node.0 {
        return level_by_tables(image, node);
    }
    level_at(image, from, node)
}

// Whether the ends of the levels rise to the node count in at most 64 levels, and the dense nodes are those on the dense levels.
pub fn levels_valid(image: &FramedImage, agrees: bool) -> bool
    requires { LoudsValid image.now.bytes.now image.now.frame × (0 < node_count image.now.frame) × (agrees ≡ sparse_agrees image.now.bytes.now image.now.frame) }
    ensures { result ≡ levels_valid image.now.bytes.now image.now.frame }
{
    let f = image.frame;
    let nodes = f.dense.nodes + f.sparse.nodes;
    let mut level = Level {
        node: NodeNum(0),
        entry: BitPos(0),
        branches: 0,
    };
    let mut end = 1usize;
    let mut depth = 1usize;
    let mut above = 0usize;
    while end < nodes {
        if depth == MAX_LEVELS {
            return false;
        }
        level = next_level(image, agrees, level, NodeNum(end));
        let next = level.branches + 1;
        if next <= end {
            return false;
        }
        if nodes < next {
            return false;
        }
        if depth == f.dense.levels {
            above = end;
        }
        end = next;
        depth += 1;
    }
    let last = if depth <= f.dense.levels { end } else { above };
    last == f.dense.nodes
}
