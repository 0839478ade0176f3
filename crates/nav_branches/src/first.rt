// The first branch of a node of an accepted image, and whether the node is an exact leaf, from one look at the node.
ghost use Rattle.nav_nodes.specs.FoundBranch.{IsNode, IsSparse, IsFirstBranch};

use super::branches::{entry_branch, next_branch};
use image::{AcceptedImage, NodeNum};
use nav_nodes::FirstBranch;
use nav_nodes::nodes::{entries_of, is_exact};

// The first branch of a sparse node: the one at its first entry.
fn first_sparse(image: &AcceptedImage, m: NodeNum) -> FirstBranch
    requires { IsSparse image.now.bytes.now image.now.frame m.0 }
    ensures { IsFirstBranch image.now.bytes.now image.now.frame m.0 result }
{
    let e = entries_of(image, m);
    FirstBranch {
        exact: e.exact,
        branch: entry_branch(image, e.first, e.end),
    }
}

// The first branch of a node.
pub fn first_branch(image: &AcceptedImage, m: NodeNum) -> FirstBranch
    requires { IsNode image.now.bytes.now image.now.frame m.0 }
    ensures { IsFirstBranch image.now.bytes.now image.now.frame m.0 result }
{
    if m.0 < image.frame.dense.nodes {
        return FirstBranch {
            exact: is_exact(image, m),
            branch: next_branch(image, m, 0),
        };
    }
    first_sparse(image, m)
}
