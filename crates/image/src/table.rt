// The table of an image's records: the mark of each, the length of its body by the header, and where each starts.
ghost use Rattle.std.specs.Prelude.{◌≡◌, ◌*◌, ◌^◌, ◌≤◌, ◌<◌};
ghost use Rattle.spec.specs.Bytes.{blocks};
ghost use Rattle.spec.specs.Image.{rows};
ghost use Rattle.image.specs.Header.{settings_of, counts_of, ShortFields};
ghost use Rattle.image.specs.Records.{row_at, row_mark, starts};

use super::{
    DENSE_BLOCK_BITS, Header, ROW_BITS, ROW_BYTES, SAMPLE_RATE, SPARSE_BLOCK_BITS, STARTS,
};
use bits::numbers::{blocks_for, bytes_for};

// The number of records of both versions. Behind them stands LV, in the version that has it.
pub const RECORDS: usize = 12;

// The bytes of a header, behind which the first record starts.
pub const HEADER: usize = 22;

// The bytes of a mark.
pub const MARK_BYTES: usize = 2;

// The bytes before a record's body: its mark and its length.
pub const BEFORE_BODY: usize = 6;

// The mark of record i, from 0; behind the twelve, that of LV.
#[tactic(auto, unfolding(crate::specs::Records::row_at, spec::specs::Image::rows, spec::specs::Image::level_row))]
pub fn mark(i: usize) -> [u8; MARK_BYTES]
    requires { i < 13 }
    ensures { result ≡ row_mark i }
{
    match i {
        0 => *b"DL",
        1 => *b"DC",
        2 => *b"DP",
        3 => *b"SL",
        4 => *b"SC",
        5 => *b"SB",
        6 => *b"SV",
        7 => *b"RL",
        8 => *b"RC",
        9 => *b"RP",
        10 => *b"RS",
        11 => *b"TS",
        _ => *b"LV",
    }
}

// The bytes of a table with a 32-bit entry for each begun block of w of n bits.
fn table_size(w: usize, n: usize) -> usize
    requires { (0 < w) × (w ≤ 512) × (n < 2 ^ 42) }
    ensures { result ≡ 4 * blocks w n }
{
    4 * blocks_for(w, n)
}

// The length of the body of record i of the twelve, from 0, by the header.
#[tactic(auto, using(crate::specs::Header::slots_short), unfolding(crate::specs::Records::row_at, spec::specs::Image::rows))]
pub fn body_size(h: Header, i: usize) -> usize
    requires { ShortFields h × (i < 12) }
    ensures { (result ≡ (row_at i).size (settings_of h) (counts_of h)) × (result < 2 ^ 40) }
{
    match i {
        0 | 1 => ROW_BYTES * h.dense.nodes,
        2 => bytes_for(h.dense.nodes),
        3 => h.sparse.entries,
        4 | 5 => bytes_for(h.sparse.entries),
        6 => bytes_for(h.leaves * (h.hash_width + h.real_width)),
        7 | 8 => table_size(DENSE_BLOCK_BITS, ROW_BITS * h.dense.nodes),
        9 => table_size(DENSE_BLOCK_BITS, h.dense.nodes),
        10 => table_size(SPARSE_BLOCK_BITS, h.sparse.entries),
        _ => table_size(SAMPLE_RATE, h.sparse.nodes),
    }
}

// Where each of the twelve records starts, and where the last one ends.
pub fn record_starts(h: Header) -> [usize; STARTS]
    requires { ShortFields h }
    ensures { result ≡ starts (settings_of h) (counts_of h) rows 22 }
{
    let mut at = HEADER;
    let mut out = [0usize; STARTS];
    for i in 0..RECORDS {
        out[i] = at;
        at += BEFORE_BODY + body_size(h, i);
    }
    out[RECORDS] = at;
    out
}
