// What the questions over an accepted image share: where the bytes of a key lead, and the suffix of an open leaf against a key.

#![tactic(auto)]

use image::{BitPos, NodeNum, ValuePos};
use nav_nodes::Found;

pub mod follow; // follow.rt: where the bytes of a key lead from the root
pub mod suffix; // suffix.rt: the suffix of an open leaf against a key that begins with its cut key

// Where bytes lead from the root: there is none; a node has no branch with the next byte; to a node, with no byte left; or to the open leaf behind the branch of a node at a position, with so many bytes passed.
#[derive(Clone, Copy)]
pub enum KeyEnd {
    NoNodes,
    NoBranch,
    Node(NodeNum),
    Leaf {
        node: NodeNum,
        at: BitPos,
        depth: usize,
    },
}

// A node on the way along a key that has a label above the key's byte there: the node, its depth, and what it has at that byte. A seek keeps the deepest one that it has passed, if there is any.
#[derive(Clone, Copy)]
pub struct HigherLabel {
    pub node: NodeNum,
    pub depth: usize,
    pub found: Found,
}

// Where the bound of a key ends: at no leaf; at a node, with no byte left; or at the open leaf with a slot. A count takes the leaf to which the key's bytes lead, whether the key has passed it or not; for a seek an open leaf that the start has passed is no leaf any more.
#[derive(Clone, Copy)]
pub enum BoundEnd {
    NoLeaf,
    Node,
    Leaf(ValuePos),
}
