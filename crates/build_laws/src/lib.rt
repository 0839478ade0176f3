// The types that the laws of the builder speak of: a key with its neighbours, an entry and its cell, the bodies that a pass fills, a range of levels, the bits of a suffix slot, and a pass. No function is declared here.

#![tactic(auto)]

// A key of the list: where its bytes start and how many there are, the first level on which it starts a node, and the length of the prefix that it shares with the key behind.
#[derive(Clone, Copy)]
pub struct Key {
    pub at: usize,
    pub len: usize,
    pub first: usize,
    pub next: usize,
}

// An entry of the trie: whether it starts its node, whether it is the exact leaf that its node is, whether it continues, and its label.
#[derive(Clone, Copy)]
pub struct Entry {
    pub start: bool,
    pub exact: bool,
    pub child: bool,
    pub label: u8,
}

// The bodies that have something of every entry.
#[derive(Clone, Copy)]
pub enum Kind {
    DL,
    DC,
    DP,
    SL,
    SC,
    SB,
}

// The bodies that are filled from the keys: of entries, or of suffix slots.
#[derive(Clone, Copy)]
pub enum Body {
    Entries(Kind),
    Slots,
}

// The levels from lo to below hi.
#[derive(Clone, Copy)]
pub struct LevelRange {
    pub lo: usize,
    pub hi: usize,
}

// A cell of a dense body: whether it starts a node, whether its bit is set, and the column of that bit in the node's row.
#[derive(Clone, Copy)]
pub struct Cell {
    pub start: bool,
    pub set: bool,
    pub column: usize,
}

// How many hash bits and how many real bits a suffix slot has. Its width is both together.
#[derive(Clone, Copy)]
pub struct SlotBits {
    pub hash_width: usize,
    pub real_width: usize,
}

// A pass over the keys: the body that it fills, the levels that it goes over, and the bits of a suffix slot.
#[derive(Clone, Copy)]
pub struct Pass {
    pub body: Body,
    pub levels: LevelRange,
    pub slot: SlotBits,
}
