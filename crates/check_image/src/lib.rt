// The public call check, and the frame of an accepted image for the calls that read one.

#![tactic(auto)]

ghost use Rattle.std.specs.Prelude.{◌≡◌, IfOk};
ghost use Rattle.spec.specs.Check.{check};
ghost use Rattle.check_image.specs.Answers.{answer, Judged, CheckedAs};

use check_frame::ranked::RankedFrame;
use check_frame::read_frame;
use check_slots::judge::slots_valid;
use check_slots::level_table::starts_valid;
use check_tables::judge::count_sparse;
use check_tables::spare::spare_clear;
use check_trie::trie::trie_valid;
use image::AcceptedImage;
use image::refusals::Refusal;

// Whether an image with its frame passes the numbers 13 to 16, or the refusal. The ranks are compared where the ones are counted, and judged in their turn.
fn judge(read: &RankedFrame) -> Result<(), Refusal>
    ensures { Judged read.now.image.bytes.now result }
{
    let image = &read.image;
    if !spare_clear(image) {
        return Err(Refusal::SpareBitSet);
    }
    let counts = count_sparse(image);
    if !trie_valid(image, counts) {
        return Err(Refusal::TrieWrong);
    }
    if !(read.agrees && counts.agrees) {
        return Err(Refusal::TableWrong);
    }
    if !starts_valid(image) {
        return Err(Refusal::TableWrong);
    }
    if !slots_valid(image) {
        return Err(Refusal::SlotWrong);
    }
    Ok(())
}

// An accepted image with its frame, or the refusal. The image is the slice that was lent.
pub fn accept<'a>(image: &'a [u8]) -> Result<AcceptedImage<'a>, Refusal>
    ensures checked { CheckedAs image.now result }
    ensures slice { IfOk result (λ a. a.bytes ≡ image.entry) }
{
    let read = read_frame(image)?;
    judge(&read)?;
    Ok(AcceptedImage {
        bytes: read.image.bytes,
        frame: read.image.frame,
    })
}

// What check says of an image: accepted, or refused with the first of 11 to 16 that applies.
pub fn check(image: &[u8]) -> Result<(), Refusal>
    ensures { answer result ≡ check image.now }
{
    let read = read_frame(image)?;
    judge(&read)
}
