// The frame of an image: the header and the records behind it, by their offsets. Judges the numbers 11 and 12 of the check.
// Used by the check and by every call that reads an accepted image.

#![tactic(auto)]

ghost use Rattle.std.specs.Prelude.{◌≡◌, ◌≤◌, ◌<◌, length, IfOk};
ghost use Rattle.spec.specs.Image.{rows};
ghost use Rattle.spec.specs.Frame.{rows_of};
ghost use Rattle.image.specs.FrameOf.{level_gap};
ghost use Rattle.image.specs.Header.{settings_of, counts_of, ShortFields};
ghost use Rattle.image.specs.Records.{records_end, lengths_agree};
ghost use Rattle.check_frame.specs.FrameLaws.{settings_valid, RecordsStand, LaidOut, frame_at, header_starts, uncounted, DenseInside, Totals};
ghost use Rattle.check_tables.specs.Tables.{dense_agrees};
ghost use Rattle.check_frame.specs.Found.{RecordFound, TwelveFound, end_found, ReadAs};

use bits::numbers::read32;
use check_tables::judge::ranks_at;
use image::header_bytes::{MAX_LEAVES, VERSION_AT, read_header, settings_in_range};
use image::refusals::Refusal;
use image::table::{BEFORE_BODY, HEADER, MARK_BYTES, RECORDS, body_size, mark, record_starts};
use image::{
    DENSE_BLOCK_WORDS, DenseTotals, Frame, FramedImage, Header, LEVELED_VERSION, ROW_BITS, Settings,
};
use ranked::RankedFrame;

pub mod ranked; // ranked.rt: an image with its frame, as it is read

// Where record number i ends, if it stands at an offset: its mark, its length, and its body within the image.
fn record_end(image: &[u8], i: usize, at: usize) -> Option<usize>
    requires { (i < 13) × (at ≤ length image.now) }
    ensures { RecordFound image.now i at result }
{
    let mark = mark(i);
    let left = image.len() - at;
    if left < BEFORE_BODY {
        return None;
    }
    let len = read32(image, at + MARK_BYTES);
    if left - BEFORE_BODY < len {
        return None;
    }
    if image[at] != mark[0] {
        return None;
    }
    if image[at + 1] != mark[1] {
        return None;
    }
    Some(at + BEFORE_BODY + len)
}

// Where the last of the twelve records ends, if all stand behind the header.
fn twelve_end(image: &[u8]) -> Option<usize>
    requires { 22 ≤ length image.now }
    ensures { TwelveFound image.now result }
{
    let mut at = HEADER;
    for i in 0..RECORDS {
        at = record_end(image, i, at)?;
    }
    Some(at)
}

// Where the last record ends, if all of the version stand: in the version that has it, LV behind the twelve.
fn last_end(image: &[u8]) -> Option<usize>
    requires { 22 ≤ length image.now }
    ensures { end_found result ≡ records_end (rows_of image.now) image.now 22 }
{
    let end = twelve_end(image)?;
    if usize::from(image[VERSION_AT]) != LEVELED_VERSION {
        return Some(end);
    }
    record_end(image, RECORDS, end)
}

// The header's settings and its leaf count are in range.
fn settings_valid(h: Header) -> bool
    ensures { result ≡ settings_valid h }
{
    let settings = Settings {
        version: h.version,
        dense_levels: h.dense.levels,
        real_width: h.real_width,
        hash_width: h.hash_width,
    };
    settings_in_range(settings) && (h.leaves <= MAX_LEAVES)
}

// Each of the twelve records has just the body length that the header gives.
fn lengths_valid(image: &[u8], h: Header) -> bool
    requires { ShortFields h × RecordsStand image.now }
    ensures { result ≡ lengths_agree (settings_of h) (counts_of h) rows image.now 22 }
{
    let mut at = HEADER;
    for i in 0..RECORDS {
        let len = read32(image, at + MARK_BYTES);
        if len != body_size(h, i) {
            return false;
        }
        at = at + BEFORE_BODY + len;
    }
    true
}

// What is counted of the dense nodes, and whether their rank tables are right.
#[derive(Clone, Copy)]
pub struct DenseCounts {
    pub totals: DenseTotals,
    pub agrees: bool,
}

// The continuing branches and the entries of the dense nodes of a frame, and whether RL, RC and RP hold the ranks of DL, DC and DP.
fn count_dense(image: &[u8], f: Frame) -> DenseCounts
    requires { DenseInside image.now f }
    ensures { Totals image.now f.dl f.dc f.dp f.dense.nodes result.totals × (result.agrees ≡ dense_agrees image.now f) }
{
    let n = f.dense.nodes;
    let labels = ranks_at(image, f.dl, ROW_BITS * n, f.rl, DENSE_BLOCK_WORDS);
    let children = ranks_at(image, f.dc, ROW_BITS * n, f.rc, DENSE_BLOCK_WORDS);
    let exacts = ranks_at(image, f.dp, n, f.rp, DENSE_BLOCK_WORDS);
    let entries = labels.ones + exacts.ones;
    let totals = DenseTotals {
        children: children.ones,
        entries,
    };
    DenseCounts {
        totals,
        agrees: labels.agrees & children.agrees & exacts.agrees,
    }
}

// The bytes between the twelve records and the body of LV, or none where the version has no LV.
fn level_gap(version: usize) -> usize
    ensures { result ≡ level_gap version }
{
    if version == LEVELED_VERSION {
        return BEFORE_BODY;
    }
    0
}

// The frame of a header: what it says, and the offset of each body by the table of the records. The totals of the dense nodes are left at 0.
pub fn frame_at(h: Header) -> Frame
    requires { ShortFields h }
    ensures { result ≡ frame_at h (header_starts h) uncounted }
{
    let width = h.hash_width + h.real_width;
    let starts = record_starts(h);
    let dense = h.dense;
    let sparse = h.sparse;
    Frame {
        version: h.version,
        real_width: h.real_width,
        hash_width: h.hash_width,
        width,
        leaves: h.leaves,
        dense,
        sparse,
        totals: DenseTotals {
            children: 0,
            entries: 0,
        },
        dl: starts[0] + BEFORE_BODY,
        dc: starts[1] + BEFORE_BODY,
        dp: starts[2] + BEFORE_BODY,
        sl: starts[3] + BEFORE_BODY,
        sc: starts[4] + BEFORE_BODY,
        sb: starts[5] + BEFORE_BODY,
        sv: starts[6] + BEFORE_BODY,
        rl: starts[7] + BEFORE_BODY,
        rc: starts[8] + BEFORE_BODY,
        rp: starts[9] + BEFORE_BODY,
        rs: starts[10] + BEFORE_BODY,
        ts: starts[11] + BEFORE_BODY,
        lv: starts[RECORDS] + level_gap(h.version),
    }
}

// An image whose records stand where its header says, with its frame and in it the totals of its dense nodes.
fn laid_out<'a>(image: &'a [u8], h: Header) -> RankedFrame<'a>
    requires { LaidOut image.now h }
    ensures { result.image.bytes ≡ image.entry }
{
    let mut frame = frame_at(h);
    let counts = count_dense(image, frame);
    frame.totals = counts.totals;
    let framed = FramedImage {
        bytes: image,
        frame,
    };
    RankedFrame {
        image: framed,
        agrees: counts.agrees,
    }
}

// An image with its frame, or 11 where a part of it does not stand there, or 12 where the header or a length is wrong. The image is the slice that was lent.
pub fn read_frame<'a>(image: &'a [u8]) -> Result<RankedFrame<'a>, Refusal>
    ensures read { ReadAs image.now result }
    ensures slice { IfOk result (λ r. r.image.bytes ≡ image.entry) }
{
    if image.len() < HEADER {
        return Err(Refusal::FrameWrong);
    }
    if image[0] != b'H' {
        return Err(Refusal::FrameWrong);
    }
    if image[1] != b'D' {
        return Err(Refusal::FrameWrong);
    }
    let end = last_end(image).ok_or(Refusal::FrameWrong)?;
    if end != image.len() {
        return Err(Refusal::FrameWrong);
    }
    let h = read_header(image);
    if !settings_valid(h) {
        return Err(Refusal::HeaderWrong);
    }
    if !lengths_valid(image, h) {
        return Err(Refusal::HeaderWrong);
    }
    Ok(laid_out(image, h))
}
