// Down from a node of an accepted image to the first leaf at or below it, and behind a branch of it. Each label goes to a key, behind the bytes that lead to the node.
ghost use Rattle.std.specs.Prelude.{◌≡◌, ◌-◌, length};
ghost use Rattle.nav_nodes.specs.Accepted.{nodes};
ghost use Rattle.nav_branches.specs.Below.{OnLevel};
ghost use Rattle.nav_branches.specs.PathSteps.{NodeBranch};
ghost use Rattle.query_descent.specs.FirstLeaf.{leaf_below, leaf_behind};
ghost use Rattle.query_seek.specs.LeafKeys.{Reached};

use image::{AcceptedImage, NodeNum};
use nav_branches::first::first_branch;
use nav_branches::{LeafEnd, LeafStop};
use nav_nodes::behind::{child, slot};
use nav_nodes::{BranchKind, NextBranch};

// The first leaf behind a branch of the node to which the first `depth` bytes of the key lead.
pub fn first_behind(
    image: &AcceptedImage,
    node: NodeNum,
    branch: NextBranch,
    key: &mut [u8],
    depth: usize,
) -> LeafEnd
    requires { NodeBranch image.now.bytes.now image.now.frame node.0 depth branch × (length key.old ≡ 64) }
    ensures { Reached image.now.bytes.now image.now.frame (leaf_behind (nodes image.now.bytes.now image.now.frame) key.old node.0 depth branch.label) key.new result }
{
    let mut m = node;
    let mut b = branch;
    let mut d = depth;
    loop {
        key[d] = b.label as u8;
        d += 1;
        let BranchKind::Child = b.kind else {
            return LeafEnd {
                depth: d,
                stop: LeafStop::Open(slot(image, m, b.at)),
            };
        };
        m = child(image, m, b.at);
        let next = first_branch(image, m);
        if next.exact {
            return LeafEnd {
                depth: d,
                stop: LeafStop::Exact,
            };
        }
        b = next.branch;
    }
}

// The first leaf at or below the node to which the first `depth` bytes of the key lead.
pub fn first_below(image: &AcceptedImage, node: NodeNum, key: &mut [u8], depth: usize) -> LeafEnd
    requires { OnLevel (nodes image.now.bytes.now image.now.frame) (64 - depth) node.0 × (length key.old ≡ 64) }
    ensures { Reached image.now.bytes.now image.now.frame (leaf_below (nodes image.now.bytes.now image.now.frame) key.old node.0 depth) key.new result }
{
    let first = first_branch(image, node);
    if first.exact {
        return LeafEnd {
            depth,
            stop: LeafStop::Exact,
        };
    }
    first_behind(image, node, first.branch, key, depth)
}
