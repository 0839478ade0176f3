// Branches of a node that are found with no search of a sparse node's labels: the one behind a branch that is known, and the last.
ghost use Rattle.std.specs.Prelude.{◌+◌, ◌<◌};
ghost use Rattle.nav_nodes.specs.FoundBranch.{IsNode, IsSparse, FoundBranch};
ghost use Rattle.nav_nodes.specs.NextBranch.{IsNextBranch};
ghost use Rattle.nav_branches.specs.EdgeContracts.{IsLastBranch};

use super::branches::{entry_branch, find, has_higher, is_there, kind_there, next_branch};
use bits::ranks::bit_at;
use image::{AcceptedImage, BitPos, NodeNum};
use nav_nodes::nodes::entries_of;
use nav_nodes::{BranchKind, Found, NextBranch};

// The first branch of a node whose label is above y, where b is what it has at y. In a sparse node the branch's position tells; a dense one is searched.
pub fn next_higher(image: &AcceptedImage, m: NodeNum, y: usize, b: Found) -> NextBranch
    requires { IsNode image.now.bytes.now image.now.frame m.0 × (y < 256) × FoundBranch image.now.bytes.now image.now.frame m.0 y b }
    ensures { IsNextBranch image.now.bytes.now image.now.frame m.0 (y + 1) result.kind result.label result.at.0 }
{
    if m.0 < image.frame.dense.nodes {
        return next_branch(image, m, y + 1);
    }
    let p = b.at.0 + usize::from(is_there(b.kind));
    entry_branch(image, BitPos(p), b.end)
}

// Whether a node has a label above y, and, if it has none, the branch at y.
#[derive(Clone, Copy)]
pub struct LastBranch {
    pub higher: bool,
    pub kind: BranchKind,
    pub at: BitPos,
}

// What the last label of a sparse node says of y.
fn last_sparse(image: &AcceptedImage, m: NodeNum, y: usize) -> LastBranch
    requires { IsSparse image.now.bytes.now image.now.frame m.0 }
    ensures { IsLastBranch image.now.bytes.now image.now.frame m.0 y result }
{
    let e = entries_of(image, m);
    if e.first.0 >= e.end.0 {
        return LastBranch {
            higher: false,
            kind: BranchKind::Absent,
            at: e.end,
        };
    }
    let p = e.end.0 - 1;
    let last = usize::from(image.bytes[image.frame.sl + p]);
    if last != y {
        return LastBranch {
            higher: y < last,
            kind: BranchKind::Absent,
            at: e.end,
        };
    }
    LastBranch {
        higher: false,
        kind: kind_there(bit_at(&image.bytes[image.frame.sc..], p)),
        at: BitPos(p),
    }
}

// Whether a node has a label above y, and, if it has none, the branch at y. The last label of a sparse node tells both; a dense one is searched.
pub fn last_branch(image: &AcceptedImage, m: NodeNum, y: usize) -> LastBranch
    requires { IsNode image.now.bytes.now image.now.frame m.0 × (y < 256) }
    ensures { IsLastBranch image.now.bytes.now image.now.frame m.0 y result }
{
    if m.0 < image.frame.dense.nodes {
        let b = find(image, m, y);
        return LastBranch {
            higher: has_higher(image, m, y, b),
            kind: b.kind,
            at: b.at,
        };
    }
    last_sparse(image, m, y)
}
