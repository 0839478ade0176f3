// A walk that keeps, for each level, where it stands among the sparse entries: key order visits the entries of a level in their order, so that the next entry is the one behind the last, and takes no rank and no select.

#![tactic(auto)]

pub mod entries; // entries.rt: what the sparse entry at a known position tells
pub mod moves; // moves.rt: up to the next higher branch, and down to the first leaf behind it
