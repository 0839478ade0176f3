// A seek's way along its start: from the root on as far as the start's bytes lead, with the last higher label that was passed.
ghost use Rattle.std.specs.Prelude.{◌≤◌, ◌<◌, length};
ghost use Rattle.nav_nodes.specs.FoundBranch.{node_count};
ghost use Rattle.query_descent.specs.Seeking.{KeyFollowed};
ghost use Rattle.query_seek.specs.WayContracts.{LeafBranch, EndsThere};

use image::{AcceptedImage, ValuePos};
use nav_branches::branches::{find, has_higher};
use nav_nodes::BranchKind;
use nav_nodes::behind::child_and_slot;
use query_descent::suffix::high_below;
use query_descent::{BoundEnd, HigherLabel};
use query_sums::bounds::Bound;
use query_sums::levels::{AT_ROOT, LevelSum};

// The bound of a start, and the last higher label that was passed: an open leaf that the start has passed counts in the bound's sum, and the bound ends at no leaf there.
#[derive(Clone, Copy)]
pub struct Way {
    pub bound: Bound,
    pub higher: Option<HigherLabel>,
}

// The bound of a start at the branch of an open leaf with this slot: it ends at the leaf, or at no leaf where the start has passed it, which then counts in the sum.
fn end_at_leaf(image: &AcceptedImage, start: &[u8], slot: ValuePos, level: LevelSum) -> Bound
    requires { LeafBranch image.now.bytes.now image.now.frame start.now slot level }
    ensures { EndsThere image.now.bytes.now image.now.frame start.now slot level result }
{
    if high_below(image, slot, start, level.depth) {
        return Bound {
            level: LevelSum {
                sum: level.sum + 1,
                ..level
            },
            end: BoundEnd::NoLeaf,
        };
    }
    Bound {
        level,
        end: BoundEnd::Leaf(slot),
    }
}

// Along the start from the root, one label search a level.
pub fn follow_key(image: &AcceptedImage, start: &[u8]) -> Way
    requires { (0 < node_count image.now.frame) × (length start.now ≤ 64) }
    ensures { KeyFollowed image.now.bytes.now image.now.frame start.now result.bound.end result.higher result.bound.level.node.0 result.bound.level.depth result.bound.level.sum }
{
    let mut level = AT_ROOT;
    let mut higher = None;
    while level.depth < start.len() {
        let y = usize::from(start[level.depth]);
        let found = find(image, level.node, y);
        if has_higher(image, level.node, y, found) {
            higher = Some(HigherLabel {
                node: level.node,
                depth: level.depth,
                found,
            });
        }
        let behind = child_and_slot(image, level.node, found.at);
        level = LevelSum {
            node: behind.child,
            depth: level.depth + 1,
            sum: level.sum + behind.slot.0,
        };
        match found.kind {
            BranchKind::Absent => {
                let end = BoundEnd::NoLeaf;
                let bound = Bound { level, end };
                return Way { bound, higher };
            }
            BranchKind::Leaf => {
                let bound = end_at_leaf(image, start, behind.slot, level);
                return Way { bound, higher };
            }
            BranchKind::Child => {}
        }
    }
    let end = BoundEnd::Node;
    let bound = Bound { level, end };
    Way { bound, higher }
}
