// The range question over an accepted image, decided where the bounds part.

#![tactic(auto)]

pub mod sides; // sides.rt: each bound alone, from a node or a branch
pub mod together; // together.rt: both bounds where they part
pub mod range; // range.rt: the range question
