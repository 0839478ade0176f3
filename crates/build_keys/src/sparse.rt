// The sparse bodies: S-Labels, with a byte for each entry, and a key's bits in S-HasChild and S-LOUDS, which their passes leave flipped: one bit set, and the cursors of the key's levels moved on.
ghost use Rattle.std.specs.Prelude.{◌≡◌, ◌-◌, length};
ghost use Rattle.build_laws.specs.LevelEntries.{pred};
ghost use Rattle.build_laws.specs.Cursors.{counts};
ghost use Rattle.build_laws.specs.BytePass.{byte_state, one_step};
ghost use Rattle.build_laws.specs.BodyLaws.{bit_at};
ghost use Rattle.build_laws.specs.PassEmissions.{KeyNumbers};
ghost use Rattle.build_laws.specs.Passes.{set_all, listed_leaves, listed_later, BitsRoom, entries_pass};
ghost use Rattle.build_laws.specs.declared.Kind.TheVariants.{SL, SC, SB};
ghost use Rattle.build_keys.specs.CountPass.{CounterRoom};
ghost use Rattle.build_keys.specs.KeySparseBits.{blank};

use super::entries::{EntryBody, is_among};
use super::numbers::{leaf_level, split_level};
use super::put::{put_bit, put_byte};
use super::{Counters, KeyWriter};
use build_laws::{Entry, Key, LevelRange};

// S-Labels: the label of each entry.
#[derive(Clone, Copy)]
pub struct SparseLabels;

impl EntryBody for SparseLabels {
    ghost kind = { SL };

    fn put(&self, out: &mut [u8], cur: &mut Counters, d: usize, e: Entry) {
        put_byte(out, cur, d, e.label);
    }
}

// The cursors of the levels from `from` to below `to` move on by one.
fn move_on(cur: &mut Counters, from: usize, to: usize)
    requires { CounterRoom one_step (blank from (to - from)) cur.old }
    ensures { cur.new ≡ counts one_step (blank from (to - from)) cur.old }
{
    for d in from..to {
        cur[d] += 1;
    }
}

// A key's bits in S-HasChild on some levels: one, on the level of its leaf.
pub fn write_leaf(out: &mut [u8], cur: &mut Counters, k: Key, l: LevelRange)
    requires { KeyNumbers (pred k.first) k.next k.len × BitsRoom (listed_leaves l k) (length out.old) cur.old }
    ensures { byte_state out.new cur.new ≡ set_all one_step bit_at (listed_leaves l k) (byte_state out.old cur.old) }
{
    let d = leaf_level(k);
    move_on(cur, split_level(k).max(l.lo), d.min(l.hi));
    if is_among(l, d) {
        put_bit(out, cur, d, true);
    }
}

// A key's bits in S-LOUDS on some levels: one, on the level where it leaves the key before it; the first key has none.
pub fn write_later(out: &mut [u8], cur: &mut Counters, k: Key, l: LevelRange)
    requires { KeyNumbers (pred k.first) k.next k.len × BitsRoom (listed_later l k) (length out.old) cur.old }
    ensures { byte_state out.new cur.new ≡ set_all one_step bit_at (listed_later l k) (byte_state out.old cur.old) }
{
    let b = split_level(k);
    if is_among(l, b) {
        put_bit(out, cur, b, b < k.first);
    }
    move_on(cur, (b + 1).max(l.lo), (leaf_level(k) + 1).min(l.hi));
}

// Writes a key's bits in S-HasChild on some levels.
#[derive(Clone, Copy)]
pub struct SparseHasChild {
    pub levels: LevelRange,
}

impl KeyWriter for SparseHasChild {
    ghost pass = { λ w. entries_pass SC w.levels };

    fn write(&self, out: &mut [u8], cur: &mut Counters, s: &[u8], k: Key) {
        write_leaf(out, cur, k, self.levels);
    }
}

// Writes a key's bits in S-LOUDS on some levels.
#[derive(Clone, Copy)]
pub struct SparseLouds {
    pub levels: LevelRange,
}

impl KeyWriter for SparseLouds {
    ghost pass = { λ w. entries_pass SB w.levels };

    fn write(&self, out: &mut [u8], cur: &mut Counters, s: &[u8], k: Key) {
        write_later(out, cur, k, self.levels);
    }
}
