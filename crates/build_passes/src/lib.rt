// Passes over an accepted key list, each linear in the list's bytes and the trie's entries: one that counts each level's entries, nodes and leaves, and one that fills a body with one cursor a level.

#![tactic(auto)]

pub mod flip; // flip.rt: a body's bits flipped
pub mod fill; // fill.rt: a body from all keys
pub mod count; // count.rt: entries, nodes and leaves of each level
pub mod offsets; // offsets.rt: level offsets and totals from the counters
