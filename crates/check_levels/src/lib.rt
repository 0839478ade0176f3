// The levels of an image by their first nodes: how one is found from another or by the tables, and number 14's tests of them. Used for the numbers 14, 15 and 16.

#![tactic(auto)]

use image::{BitPos, NodeNum};

pub mod step; // step.rt: a level from one before it
pub mod tables; // tables.rt: a level by the tables
pub mod judge; // judge.rt: the tests of the levels

// A level of the trie: the number of its first node, or of all nodes where no level is so deep; where the sparse entries of that node begin, 0 for a dense node;
// and how many branches continue before it.
#[derive(Clone, Copy)]
pub struct Level {
    pub node: NodeNum,
    pub entry: BitPos,
    pub branches: usize,
}
