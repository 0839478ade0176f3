// The seek question over an accepted image, which the first leaf at or behind its start decides.

#![tactic(auto)]

pub mod start; // start.rt: the start of a seek at the front of a key
pub mod way; // way.rt: a seek's way along its start
pub mod leaf; // leaf.rt: down to the first leaf
pub mod next; // next.rt: the first leaf that a start has not passed
pub mod seek; // seek.rt: the seek question
