// The records of an image, written by the table of the records: each its mark, the length of its body, and its body.

#![tactic(auto)]

use build_laws::Body;
use image::{Header, STARTS};

pub mod bodies; // bodies.rt: a record's body, filled from the keys or counted in an earlier body
pub mod records; // records.rt: a record, and all records, one behind the other
pub mod levels; // levels.rt: the records behind the twelve, by the nodes of each level

// Where a record's body comes from: a pass over the keys; the ranks of an earlier record's body, by that record's number and the words of a block; or the samples of an earlier record's body.
#[derive(Clone, Copy)]
pub enum Source {
    Keys(Body),
    Ranks(usize, usize),
    Samples(usize),
}

// What is known of an image before a byte is written: its header, and where each record starts and the last one ends.
#[derive(Clone, Copy)]
pub struct Plan {
    pub header: Header,
    pub starts: [usize; STARTS],
}
