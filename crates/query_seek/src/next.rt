// The first leaf that a start has not passed: where the way along the start ends, or else behind the last higher label that was passed. Its cut key goes to a key, behind the bytes of the start that lead to it.
ghost use Rattle.std.specs.Prelude.{◌≡◌, ◌≤◌, length};
ghost use Rattle.spec.specs.Nodes.{read_leaves};
ghost use Rattle.nav_nodes.specs.Accepted.{nodes};
ghost use Rattle.query_seek.specs.LeafKeys.{Reached};
ghost use Rattle.query_descent.specs.Ordered.{next_leaf};
ghost use Rattle.query_descent.specs.Seeking.{higher_leaf};
ghost use Rattle.query_seek.specs.SeekContracts.{PassedHigher, WayFollowed, IsNextLeaf};

use super::leaf::{first_behind, first_below};
use super::start::write_start;
use super::way::{Way, follow_key};
use image::AcceptedImage;
use nav_branches::edges::next_higher;
use nav_branches::{LeafEnd, LeafStop};
use query_descent::{BoundEnd, HigherLabel};
use query_sums::levels::{AT_ROOT, LevelSum};

// The first leaf that a start has not passed, and the start's bound on the level below its last branch, from which the leaves that it has passed can be counted.
#[derive(Clone, Copy)]
pub struct NextLeaf {
    pub end: LeafEnd,
    pub level: LevelSum,
}

// No leaf.
const NO_LEAF: LeafEnd = LeafEnd {
    depth: 0,
    stop: LeafStop::Nowhere,
};

// The first leaf behind the last higher label that was passed. The key begins with the start.
fn leaf_above(
    image: &AcceptedImage,
    start: &[u8],
    higher: Option<HigherLabel>,
    key: &mut [u8],
) -> LeafEnd
    requires { PassedHigher image.now.bytes.now image.now.frame start.now higher key.old }
    ensures { Reached image.now.bytes.now image.now.frame (higher_leaf (nodes image.now.bytes.now image.now.frame) start.now higher) key.new result }
{
    match higher {
        None => NO_LEAF,
        Some(label) => {
            let y = usize::from(start[label.depth]);
            let branch = next_higher(image, label.node, y, label.found);
            first_behind(image, label.node, branch, key, label.depth)
        }
    }
}

// The leaf that is sought, from where the way along the start ends. The key begins with the start.
fn leaf_of_way(image: &AcceptedImage, start: &[u8], way: Way, key: &mut [u8]) -> LeafEnd
    requires { WayFollowed image.now.bytes.now image.now.frame start.now way key.old }
    ensures { Reached image.now.bytes.now image.now.frame (next_leaf image.now.frame.hash_width (read_leaves image.now.bytes.now) start.now) key.new result }
{
    let level = way.bound.level;
    match way.bound.end {
        BoundEnd::NoLeaf => leaf_above(image, start, way.higher, key),
        BoundEnd::Node => first_below(image, level.node, key, level.depth),
        BoundEnd::Leaf(slot) => LeafEnd {
            depth: level.depth,
            stop: LeafStop::Open(slot),
        },
    }
}

// The first leaf that a start has not passed, if there is one.
pub fn next_leaf(image: &AcceptedImage, start: &[u8], key: &mut [u8]) -> NextLeaf
    requires { (length start.now ≤ 64) × (length key.old ≡ 64) }
    ensures { IsNextLeaf image.now.bytes.now image.now.frame start.now key.new result }
{
    if image.frame.dense.nodes + image.frame.sparse.nodes == 0 {
        return NextLeaf {
            end: NO_LEAF,
            level: AT_ROOT,
        };
    }
    write_start(key, start);
    let way = follow_key(image, start);
    NextLeaf {
        end: leaf_of_way(image, start, way, key),
        level: way.bound.level,
    }
}
