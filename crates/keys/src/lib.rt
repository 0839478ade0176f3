// Keys in byte slices: what two keys share, and their order. The builder and the questions rest on these.

#![tactic(auto)]

pub mod compare; // compare.rt: the prefix that two keys share, and their order

// No key has more bytes.
pub const MAX_KEY_BYTES: usize = 64;
