// The sparse entries by 64-bit words: labels ascend, the extra FF does not continue, a sole entry continues.
// The first entry, which may be in the root, and those before and behind the whole words are tested one by one.
ghost use Rattle.std.specs.Prelude.{◌≡◌, ℕ, false, ◌+◌, ◌-◌, ◌*◌, ◌≤◌, ◌<◌, length, slice_index};
ghost use Rattle.spec.specs.Nodes.{zip_entries};
ghost use Rattle.check_levels.specs.BitTests.{sparse_valid};
ghost use Rattle.check_levels.specs.Positions.{bits, is_set};
ghost use Rattle.check_levels.specs.EntryPositions.{EntryRoom, EntriesSized, entry_valid, entries_from};
ghost use Rattle.check_trie.specs.WordEntries.{range_valid, end_valid, next_bits};

use super::label_masks::{ascents, full_labels};
use super::label_order::descents_within;
use bits::numbers::{read_word, read64};
use bits::ranks::bit_at;
use image::{BitPos, EXTRA_LABEL};

// The bodies of the sparse entries: their labels, and the bits of those that continue and of those that start a node.
#[derive(Clone, Copy)]
pub struct SparseBodies<'a> {
    pub labels: &'a [u8],
    pub children: &'a [u8],
    pub starts: &'a [u8],
    ghost in_range: { (i : ℕ) → (slice_index labels.now i < 256) × (slice_index children.now i < 256) × (slice_index starts.now i < 256) },
}

// Whether the entry at a position is valid: `root`, it is in the root; `start`, it is the first of its node; `begins`, the next entry begins a node.
fn entry_valid(bodies: &SparseBodies, at: BitPos, root: bool, start: bool, begins: bool) -> bool
    requires { (at.0 + 1 < length bodies.now.labels.now) × (at.0 < 8 * length bodies.now.children.now) }
    ensures { result ≡ entry_valid bodies.now.labels.now bodies.now.children.now root start at.0 begins }
{
    let j = at.0;
    let continues = bit_at(bodies.children, j) == 1;
    if begins {
        return !start | continues | root;
    }
    if start & (bodies.labels[j] == EXTRA_LABEL) {
        return !continues & !root;
    }
    bodies.labels[j] < bodies.labels[j + 1]
}

// Whether the last entry, which stands at a position and is not in the root, is valid.
fn last_valid(bodies: &SparseBodies, at: BitPos) -> bool
    requires { (at.0 < 8 * length bodies.now.children.now) × (at.0 < 8 * length bodies.now.starts.now) }
    ensures { result ≡ end_valid bodies.now.children.now bodies.now.starts.now at.0 }
{
    let start = bit_at(bodies.starts, at.0) == 1;
    let continues = bit_at(bodies.children, at.0) == 1;
    !start | continues
}

// Whether the entries from one position on and before another are valid, one by one; none is in the root, and each has one behind it.
fn range_valid(bodies: &SparseBodies, from: BitPos, to: BitPos) -> bool
    requires { (from.0 ≤ to.0) × EntryRoom bodies.now.labels.now bodies.now.children.now bodies.now.starts.now to.0 }
    ensures { result ≡ range_valid bodies.now.labels.now bodies.now.children.now bodies.now.starts.now from.0 (to.0 - from.0) }
{
    for j in from.0..to.0 {
        let start = bit_at(bodies.starts, j) == 1;
        let begins = bit_at(bodies.starts, j + 1) == 1;
        if !entry_valid(bodies, BitPos(j), false, start, begins) {
            return false;
        }
    }
    true
}

// The S-LOUDS bits of the entries behind those of a word x, where `next` is the next word.
fn shift_in(x: u64, next: u64) -> u64
    ensures { result ≡ next_bits x next }
{
    (x >> 1) | ((next % 2) << 63)
}

// Whether the 64 entries of word q are valid, none of which is in the root, and each of which has one behind it.
fn word_valid(bodies: &SparseBodies, q: usize) -> bool
    requires { EntryRoom bodies.now.labels.now bodies.now.children.now bodies.now.starts.now (64 * q + 64) }
    ensures { result ≡ range_valid bodies.now.labels.now bodies.now.children.now bodies.now.starts.now (64 * q) 64 }
{
    let x = read64(bodies.starts, q * 8);
    let y = shift_in(x, read_word(bodies.starts, q + 1));
    let c = read64(bodies.children, q * 8);
    let sole_ends = x & y & !c;
    if !y == 0 {
        return sole_ends == 0;
    }
    if descents_within(bodies.labels, 64 * q, y) {
        return sole_ends == 0;
    }
    let descents = !y & !ascents(bodies.labels, 64 * q);
    let not_extra = !x | c | !full_labels(bodies.labels, 64 * q);
    sole_ends | (descents & not_extra) == 0
}

// Whether the entries of the words from one on and before another are valid.
fn words_valid(bodies: &SparseBodies, from: usize, to: usize) -> bool
    requires { (from ≤ to) × EntryRoom bodies.now.labels.now bodies.now.children.now bodies.now.starts.now (64 * to) }
    ensures { result ≡ range_valid bodies.now.labels.now bodies.now.children.now bodies.now.starts.now (64 * from) (64 * (to - from)) }
{
    for q in from..to {
        if !word_valid(bodies, q) {
            return false;
        }
    }
    true
}

// Whether the entries from 1 on are valid, the last of which stands at a position.
fn later_valid(bodies: &SparseBodies, last: BitPos) -> bool
    requires { (0 < last.0) × EntryRoom bodies.now.labels.now bodies.now.children.now bodies.now.starts.now last.0 }
    ensures { result ≡ entries_from bodies.now.labels.now bodies.now.children.now bodies.now.starts.now false (is_set bodies.now.starts.now 1) 1 (last.0 - 1) }
{
    let words = last.0 / 64;
    let end = last_valid(bodies, last);
    if words == 0 {
        return range_valid(bodies, BitPos(1), last) & end;
    }
    let first = range_valid(bodies, BitPos(1), BitPos(64));
    let middle = words_valid(bodies, 1, words);
    let rest = range_valid(bodies, BitPos(64 * words), last);
    first & middle & rest & end
}

// Whether the n sparse entries are valid, of which the first is in the root or not.
pub fn sparse_valid(bodies: &SparseBodies, n: usize, root: bool) -> bool
    requires { EntriesSized bodies.now.labels.now bodies.now.children.now bodies.now.starts.now n }
    ensures { result ≡ sparse_valid root (zip_entries bodies.now.labels.now (bits bodies.now.children.now n)) (bits bodies.now.starts.now n) }
{
    if n == 0 {
        return true;
    }
    if n == 1 {
        return (bit_at(bodies.children, 0) == 1) | root;
    }
    let begins = bit_at(bodies.starts, 1) == 1;
    let valid = entry_valid(bodies, BitPos(0), root, true, begins);
    valid & later_valid(bodies, BitPos(n - 1))
}
