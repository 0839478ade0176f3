// Branches of the nodes of an accepted image, and paths from its root. The questions and the walk rest on these.

#![tactic(auto)]

use image::{MAX_LEVELS, NodeNum, ValuePos};

pub mod branches; // branches.rt: branches by their label, and those of a sparse node by their entry
pub mod first; // first.rt: the first branch of a node
pub mod edges; // edges.rt: the branch behind one that is known, and the last, with no search of labels
pub mod paths; // paths.rt: the path that has its root only, the next higher branch of a path, and a path that ends at a leaf

// The leaf where a way from the root ends: none, the exact leaf that the last node is, or the open leaf with a slot.
#[derive(Clone, Copy)]
pub enum LeafStop {
    Nowhere,
    Exact,
    Open(ValuePos),
}

// The leaf where a way from the root ends, and how many labels lead to it.
#[derive(Clone, Copy)]
pub struct LeafEnd {
    pub depth: usize,
    pub stop: LeafStop,
}

// A path from the root: its node on each level, and the label that is taken there.
#[derive(Clone, Copy)]
pub struct Path {
    pub nodes: [NodeNum; MAX_LEVELS],
    pub labels: [u8; MAX_LEVELS],
}
