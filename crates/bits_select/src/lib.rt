// The position of a one in a byte slice: by its number, or the next one from a position on. The rank tables, the check and the questions rest on these.

#![tactic(auto)]

pub mod byte_ones; // byte_ones.rt: where the ones of a byte stand, as a table
pub mod in_word; // in_word.rt: the position of a one inside a word
pub mod select; // select.rt: the position of a one by its number
