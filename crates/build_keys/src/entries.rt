// A key's entries, and what they do in a body: a branch on each level of its cut key that the keys before have not made, and the exact leaf.
ghost use Rattle.std.specs.Prelude.{◌≡◌, [], ◌∷◌, length};
ghost use Rattle.build_laws.specs.LevelEntries.{pred};
ghost use Rattle.build_laws.specs.Emissions.{emission};
ghost use Rattle.build_laws.specs.PassEmissions.{KeyNumbers};
ghost use Rattle.build_laws.specs.BytePass.{byte_state};
ghost use Rattle.build_laws.specs.Passes.{entries_pass, key_exact, EntriesRoom, write_entry};
ghost use Rattle.build_laws.specs.declared.Kind.{Kind};
ghost use Rattle.build_keys.specs.EntryLaws.{BranchLevels};
ghost use Rattle.build_keys.specs.KeySparseBits.{among};

use super::numbers::{cut_length, leaf_level, split_level};
use super::{Counters, KeyWriter};
use build_laws::{Entry, Key, LevelRange};
use image::EXTRA_LABEL;

// An exact leaf's entry.
const EXACT_LEAF: Entry = Entry {
    start: true,
    exact: true,
    child: false,
    label: EXTRA_LABEL,
};

// A body that has something of every entry.
pub trait EntryBody {
    // Which body it is.
    ghost kind: { Kind };

    // What an entry does in the body, at the cursor of its level d, which moves on.
    fn put(&self, out: &mut [u8], cur: &mut Counters, d: usize, e: Entry)
        requires { EntriesRoom kind (emission d e ∷ []) (length out.old) cur.old }
        ensures { byte_state out.new cur.new ≡ write_entry kind (emission d e) (byte_state out.old cur.old) };
}

// The levels of a key's branches among some levels: from the one where it leaves the key before it to the last one of its cut key.
pub fn branch_levels(k: Key, l: LevelRange) -> LevelRange
    requires { KeyNumbers (pred k.first) k.next k.len }
    ensures { BranchLevels k l result }
{
    LevelRange {
        lo: split_level(k).max(l.lo),
        hi: cut_length(k).min(l.hi),
    }
}

// Whether d is one of the levels.
pub fn is_among(l: LevelRange, d: usize) -> bool
    ensures { result ≡ among l d }
{
    l.lo <= d && d < l.hi
}

// Whether the key is an exact leaf on one of the levels.
pub fn has_exact(k: Key, l: LevelRange) -> bool
    ensures { result ≡ key_exact k.next k.len l.lo l.hi }
{
    k.next == k.len && is_among(l, k.len)
}

// Writes what each entry of a key on some levels does in a body.
#[derive(Clone, Copy)]
pub struct EntryWriter<B> {
    pub body: B,
    pub levels: LevelRange,
}

impl<B: EntryBody> KeyWriter for EntryWriter<B> {
    ghost pass = { λ w. entries_pass B.kind w.levels };

    fn write(&self, out: &mut [u8], cur: &mut Counters, s: &[u8], k: Key) {
        let leaf = leaf_level(k);
        let b = branch_levels(k, self.levels);
        for d in b.lo..b.hi {
            let e = Entry {
                start: k.first <= d,
                exact: false,
                child: d < leaf, // a branch continues above the level of the leaf
                label: s[k.at + d],
            };
            self.body.put(out, cur, d, e);
        }
        if has_exact(k, self.levels) {
            self.body.put(out, cur, k.len, EXACT_LEAF);
        }
    }
}
