// A key list's records: judged one by one, which gives the numbers 1 to 4, and read again by the passes of the builder.

#![tactic(auto)]

pub mod judge; // judge.rt: a key list, judged record by record
pub mod read; // read.rt: the key of a record, what it shares with the next, and whether all keys are long

// The bytes before a record's key: its mark and the key's length.
const BEFORE_KEY: usize = 3;
