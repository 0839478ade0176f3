// The branch of a node before which so many of the leaves at or below the node stand: the range of labels in which it lies is halved until it is found.
ghost use Rattle.std.specs.Prelude.{◌≡◌, [], ◌+◌, ◌-◌, ◌<◌};
ghost use Rattle.nav_nodes.specs.Accepted.{nodes};
ghost use Rattle.nav_nodes.specs.Positions.{child_at, slot_at};
ghost use Rattle.query_descent.specs.LevelSums.{slots_below};
ghost use Rattle.walk_cursor.specs.Located.{lowered_range, Summable, MoreLeaves, Ranges, Narrows, Takes};

use image::{AcceptedImage, BitPos, NodeNum};
use nav_branches::branches::{is_there, next_branch};
use nav_nodes::NextBranch;
use nav_nodes::behind::child_and_slot;
use query_sums::levels::{LevelSum, sum_below};

// The labels of a byte, one more than the last.
const LABELS: usize = 256;

// A range of a node's labels: the position of the node's first branch, the branch at the low end of the range, how many leaves of the node stand before that branch, and the label behind the range.
#[derive(Clone, Copy)]
pub struct Range {
    pub first: BitPos,
    pub low: NextBranch,
    pub before: usize,
    pub high: usize,
}

// The sum of a branch of a node at a depth: its slot number, and the leaves before the first node behind it on each of the levels below. The leaves between two branches are the difference of their sums.
fn branch_sum(image: &AcceptedImage, m: NodeNum, depth: usize, at: BitPos) -> usize
    requires { Summable image.now.bytes.now image.now.frame m.0 depth at.0 }
    ensures { result ≡ slot_at image.now.bytes.now image.now.frame m.0 at.0 + slots_below (nodes image.now.bytes.now image.now.frame) (63 - depth) (child_at image.now.bytes.now image.now.frame m.0 at.0) [] }
{
    let next = child_and_slot(image, m, at);
    sum_below(
        image,
        LevelSum {
            node: next.child,
            depth: depth + 1,
            sum: next.slot.0,
        },
    )
}

// A range with another label behind it.
fn lowered(r: Range, high: usize) -> Range
    ensures { result ≡ lowered_range r high }
{
    Range { high, ..r }
}

// A range that is narrower by half at least, by the first branch from its middle on: it becomes the low one if no more than skip leaves stand before it.
// Sums are taken only where there is such a branch before the range's end.
fn narrow(image: &AcceptedImage, m: NodeNum, depth: usize, skip: usize, r: Range) -> Range
    requires { MoreLeaves image.now.bytes.now image.now.frame m.0 depth skip × Ranges image.now.bytes.now image.now.frame m.0 depth skip r × (r.low.label + 1 < r.high) }
    ensures { Narrows image.now.bytes.now image.now.frame m.0 depth skip r result }
{
    let middle = r.low.label + (r.high - r.low.label) / 2;
    let b = next_branch(image, m, middle);
    if !is_there(b.kind) {
        return lowered(r, middle);
    }
    if r.high <= b.label {
        return lowered(r, middle);
    }
    let start = branch_sum(image, m, depth, r.first);
    let before = branch_sum(image, m, depth, b.at) - start;
    if skip < before {
        return lowered(r, middle);
    }
    Range {
        low: b,
        before,
        ..r
    }
}

// The branch of a node at a depth behind which the leaf with skip of the node's leaves before it stands, as the low one of a range with no other label.
pub fn take_branch(image: &AcceptedImage, m: NodeNum, depth: usize, skip: usize) -> Range
    requires { MoreLeaves image.now.bytes.now image.now.frame m.0 depth skip }
    ensures { Takes image.now.bytes.now image.now.frame m.0 depth skip result }
{
    let low = next_branch(image, m, 0);
    let mut r = Range {
        first: low.at,
        low,
        before: 0,
        high: LABELS,
    };
    while r.low.label + 1 < r.high {
        r = narrow(image, m, depth, skip, r);
    }
    r
}
