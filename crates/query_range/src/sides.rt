// One bound of a range alone: whether a leaf at or below a node, or behind a branch, does not end below the lower bound, or does not start above the upper.
ghost use Rattle.std.specs.Prelude.{◌≡◌, ◌+◌};
ghost use Rattle.query_range.specs.RangeWays.{KeyAt, KeyBranch, group_below, group_behind, left_of, reached_of};

use image::{AcceptedImage, BitPos, NodeNum};
use nav_branches::edges::last_branch;
use nav_branches::first::first_branch;
use nav_nodes::BranchKind;
use nav_nodes::behind::{child, slot};
use nav_nodes::nodes::is_exact;
use query_descent::suffix::{high_below, low_above};

// A branch of a node: its kind and its position.
#[derive(Clone, Copy)]
pub struct Branch {
    pub kind: BranchKind,
    pub at: BitPos,
}

// Whether a leaf at or below a node, to which the first `depth` bytes of the lower bound lead, does not end below the bound. A label above the bound's byte decides at once.
fn left_below(image: &AcceptedImage, lo: &[u8], node: NodeNum, depth: usize) -> bool
    requires { KeyAt image.now.bytes.now image.now.frame lo.now node.0 depth }
    ensures { result ≡ left_of image.now.frame lo.now depth (group_below image.now.bytes.now image.now.frame node.0 depth) }
{
    let mut m = node;
    for d in depth..lo.len() {
        let last = last_branch(image, m, usize::from(lo[d]));
        if last.higher {
            return true;
        }
        match last.kind {
            BranchKind::Absent => {
                return false;
            }
            BranchKind::Leaf => {
                return !high_below(image, slot(image, m, last.at), lo, d + 1);
            }
            BranchKind::Child => {
                m = child(image, m, last.at);
            }
        }
    }
    true
}

// Whether a leaf behind a node's branch with the lower bound's byte does not end below the bound.
pub fn left_behind(
    image: &AcceptedImage,
    lo: &[u8],
    node: NodeNum,
    depth: usize,
    branch: Branch,
) -> bool
    requires { KeyBranch image.now.bytes.now image.now.frame lo.now node.0 depth branch.kind branch.at.0 }
    ensures { result ≡ left_of image.now.frame lo.now (depth + 1) (group_behind image.now.bytes.now image.now.frame lo.now node.0 depth) }
{
    match branch.kind {
        BranchKind::Absent => false,
        BranchKind::Leaf => !high_below(image, slot(image, node, branch.at), lo, depth + 1),
        BranchKind::Child => left_below(image, lo, child(image, node, branch.at), depth + 1),
    }
}

// Whether a leaf at or below a node, to which the first `depth` bytes of the upper bound lead, does not start above the bound. An exact leaf or a label below the bound's byte decides at once.
pub fn reached_below(image: &AcceptedImage, hi: &[u8], node: NodeNum, depth: usize) -> bool
    requires { KeyAt image.now.bytes.now image.now.frame hi.now node.0 depth }
    ensures { result ≡ reached_of image.now.frame hi.now depth (group_below image.now.bytes.now image.now.frame node.0 depth) }
{
    let mut m = node;
    for d in depth..hi.len() {
        let y = usize::from(hi[d]);
        let first = first_branch(image, m);
        let branch = first.branch;
        if first.exact || branch.label < y {
            return true;
        }
        if y < branch.label {
            return false;
        }
        match branch.kind {
            BranchKind::Absent => {
                return false;
            }
            BranchKind::Leaf => {
                return !low_above(image, slot(image, m, branch.at), hi, d + 1);
            }
            BranchKind::Child => {
                m = child(image, m, branch.at);
            }
        }
    }
    is_exact(image, m)
}

// Whether a leaf behind a node's branch with the upper bound's byte does not start above the bound.
pub fn reached_behind(
    image: &AcceptedImage,
    hi: &[u8],
    node: NodeNum,
    depth: usize,
    branch: Branch,
) -> bool
    requires { KeyBranch image.now.bytes.now image.now.frame hi.now node.0 depth branch.kind branch.at.0 }
    ensures { result ≡ reached_of image.now.frame hi.now (depth + 1) (group_behind image.now.bytes.now image.now.frame hi.now node.0 depth) }
{
    match branch.kind {
        BranchKind::Absent => false,
        BranchKind::Leaf => !low_above(image, slot(image, node, branch.at), hi, depth + 1),
        BranchKind::Child => reached_below(image, hi, child(image, node, branch.at), depth + 1),
    }
}
