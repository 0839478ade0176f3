// Paths of an accepted image: the one that has its root only, with which a walk begins, what going up one finds, and one that ends at a leaf.
ghost use Rattle.nav_branches.specs.PathContracts.{RootOnly};

use super::{LeafStop, Path};
use image::{MAX_LEVELS, NodeNum};
use nav_nodes::NextBranch;

// The path that has its root only.
pub fn root_path() -> Path
    ensures { RootOnly result }
{
    Path {
        nodes: [NodeNum(0); MAX_LEVELS],
        labels: [0; MAX_LEVELS],
    }
}

// The next higher branch of a path: the depth of its node, and the branch itself, which is absent where none is left.
#[derive(Clone, Copy)]
pub struct Higher {
    pub depth: usize,
    pub branch: NextBranch,
}

// A path that ends at a leaf: its nodes and labels, the leaf, and how many labels lead to it.
#[derive(Clone, Copy)]
pub struct PathEnd {
    pub path: Path,
    pub stop: LeafStop,
    pub depth: usize,
}
