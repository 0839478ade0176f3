// The starts of nodes with several entries in a word of S-LOUDS, and which of them the words' labels let pass: an exact leaf's entry has the label FF.
ghost use Rattle.std.specs.Prelude.{◌≡◌, true, ℕ, ◌+◌, ◌*◌, ◌≤◌, ◌<◌, length, get_or};
ghost use Rattle.check_slots.specs.WordDigits.{lone};
ghost use Rattle.check_slots.specs.SparseWords.{SeveralStarts, FullKept, Candidates};

use bits::numbers::{read_word, read64};
use image::EXTRA_LABEL;

// 2^63: the highest bit of a word.
const HIGHEST_BIT: u64 = 9223372036854775808;

// The set bits of a word whose next bit is not set, the one behind the word given.
fn lone(word: u64, next: u64) -> u64
    requires { next < 2 }
    ensures { result ≡ lone word next }
{
    word ^ (word & (word / 2 + next * HIGHEST_BIT))
}

// The starts of nodes with several entries in word q of S-LOUDS, behind which it has a bit more.
fn several(sb: &[u8], q: usize) -> u64
    requires { q * 8 + 8 < length sb.now }
    ensures { SeveralStarts sb.now q result }
{
    lone(read64(sb, q * 8), u64::from(sb[q * 8 + 8] % 2))
}

// The starts of nodes with several entries in the last word of S-LOUDS, by its number.
pub fn last_several(sb: &[u8], q: usize) -> u64
    requires { (q * 8 ≤ length sb.now) × (length sb.now ≤ q * 8 + 8) }
    ensures { SeveralStarts sb.now q result }
{
    lone(read_word(sb, q), 0)
}

// Whether none of the 64 labels from at on is FF, by the greatest of them.
fn none_full(sl: &[u8], at: usize) -> bool
    requires { at + 64 ≤ length sl.now }
    ensures { result ≡ true → (i : ℕ) → i < 64 → get_or sl.now (at + i) 0 < 255 }
{
    let mut greatest = 0u8;
    let mut i = 0usize;
    while i < 64 {
        let label = sl[at + i];
        if greatest < label {
            greatest = label;
        }
        i += 1;
    }
    greatest < EXTRA_LABEL
}

// Of some entries of word q, given by their bits, those from the first with the label FF on, or none where none has it.
fn from_full(sl: &[u8], q: usize, starts: u64) -> u64
    requires { 64 * q + 64 ≤ length sl.now }
    ensures { FullKept sl.now q starts result }
{
    let mut rest = starts;
    while rest != 0 {
        let at = rest.trailing_zeros() as usize;
        if sl[64 * q + at] == EXTRA_LABEL {
            return rest;
        }
        rest -= 1u64 << at;
    }
    0
}

// Of the starts of nodes with several entries in a word behind which S-LOUDS has a bit more, those from the first with the label FF on. Most words have no such start, or no label FF at all.
pub fn candidates(sl: &[u8], sb: &[u8], q: usize) -> u64
    requires { (64 * q + 64 ≤ length sl.now) × (q * 8 + 8 < length sb.now) }
    ensures { Candidates sl.now sb.now q result }
{
    let starts = several(sb, q);
    if starts == 0 {
        return 0;
    }
    if none_full(sl, 64 * q) {
        return 0;
    }
    from_full(sl, q, starts)
}
