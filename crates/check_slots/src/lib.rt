// Suffix slots and LV over an image and its frame. Number 16: an exact leaf's slot is zero, and no real bit is set past a key's 64th byte. The rest of number 15: LV holds the first nodes of the levels.

#![tactic(auto)]

pub mod clear; // clear.rt: bits and suffix slots that are clear
pub mod node_starts; // node_starts.rt: the starts of nodes with several entries in a word of S-LOUDS
pub mod last_levels; // last_levels.rt: the levels 62 and 63
pub mod dense; // dense.rt: the exact leaves among the dense nodes
pub mod sparse; // sparse.rt: those among the sparse nodes
pub mod judge; // judge.rt: number 16
pub mod level_table; // level_table.rt: LV, for number 15
