// Byte slices as numbers and as bits: little-endian numbers, parts of slices and copies into them, single bits and counts of ones. The builder, the check, the questions and the walk read and write images with these.

#![tactic(auto)]

pub mod numbers; // numbers.rt: numbers of four and of eight bytes
pub mod parts; // parts.rt: a part of a slice
pub mod copy; // copy.rt: bytes copied into a slice
pub mod reverse; // reverse.rt: a byte's bits in the other order
pub mod ranks; // ranks.rt: single bits, and counts of ones by 64-bit words
