// One key of an accepted list: its numbers, its entries, and what it writes into the body of each record at the cursors of its levels.

#![tactic(auto)]

ghost use Rattle.std.specs.Prelude.{◌≡◌, length};
ghost use Rattle.build_laws.specs.BytePass.{byte_state};
ghost use Rattle.build_laws.specs.Passes.{key_bytes, ListedKey, pass_key, KeyRoomOf};
ghost use Rattle.build_laws.specs.declared.Pass.{Pass};

use build_laws::Key;

pub mod numbers; // numbers.rt: the numbers of a key
pub mod put; // put.rt: a byte or a bit at a level's cursor
pub mod entries; // entries.rt: a key's entries, and what they do in a body
pub mod dense; // dense.rt: the dense bodies
pub mod sparse; // sparse.rt: the sparse bodies
pub mod slots; // slots.rt: a key's suffix slot

// A counter for each of the 64 levels, and one for the end.
pub const COUNTERS: usize = 65;

// What is counted on each level; or where on each level the next thing goes.
pub type Counters = [u32; COUNTERS];

// Entries, nodes and leaves of each level.
#[derive(Clone, Copy)]
pub struct LevelCounts {
    pub entries: Counters,
    pub nodes: Counters,
    pub leaves: Counters,
}

// What writes each key of a list into a body, at the cursors of its levels.
pub trait KeyWriter {
    // The pass over the keys that it makes.
    ghost pass: { Self → Pass };

    // Writes a key of the list.
    fn write(&self, out: &mut [u8], cur: &mut Counters, s: &[u8], k: Key)
        requires { ListedKey s.now k × KeyRoomOf (pass self.now) k (key_bytes s.now k) (length out.old) cur.old }
        ensures { byte_state out.new cur.new ≡ pass_key (pass self.now) k (key_bytes s.now k) (byte_state out.old cur.old) };
}
