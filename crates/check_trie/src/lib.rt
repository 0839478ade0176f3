// Number 14 of the check: whether the bits and labels of an image are a builder's trie.
// Each test is a function of the bodies; the laws say that together they are document 01's.

#![tactic(auto)]

pub mod cover; // cover.rt: one bitmap within another
pub mod dense; // dense.rt: the dense nodes, by words
pub mod label_masks; // label_masks.rt: masks of 64 labels
pub mod label_order; // label_order.rt: labels that descend, against bits of S-LOUDS
pub mod sparse; // sparse.rt: the sparse entries, by words
pub mod trie; // trie.rt: all tests together
