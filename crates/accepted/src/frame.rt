// An image that the check has accepted, with its frame, which is read again from its header and its rank tables. It takes a constant number of steps, so that a caller may ask one question at a time without keeping the frame.
ghost use Rattle.std.specs.Prelude.{◌≡◌, ◌*◌, drop};
ghost use Rattle.spec.specs.Check.{verdict};
ghost use Rattle.bits.specs.Bits.{rank};
ghost use Rattle.image.specs.FrameOf.{FrameOf};
ghost use Rattle.check_frame.specs.FrameLaws.{Totals};
ghost use Rattle.accepted.specs.Uncounted.{Uncounted};

use bits::numbers::read32;
use bits::ranks::ones_word;
use check_frame::frame_at;
use image::header_bytes::read_header;
use image::{AcceptedImage, DenseTotals, Frame, ROW_WORDS};

// The bytes of a rank.
const RANK_BYTES: usize = 4;

// The continuing branches of the dense nodes of an accepted image: those before the last word of D-HasChild, by its rank, and those in it.
fn dense_children(image: &[u8], f: Frame) -> usize
    requires { Uncounted image.now f }
    ensures { result ≡ rank (drop f.dc image.now) (256 * f.dense.nodes) }
{
    let n = f.dense.nodes;
    if n == 0 {
        return 0;
    }
    let last = ROW_WORDS * n - 1;
    let before = read32(&image[f.rc..], RANK_BYTES * last);
    before + ones_word(&image[f.dc..], last)
}

// The totals of the dense nodes of an accepted image; those of the frame are not read. All entries together are a continuing branch for each node but the root and one for each leaf, so that the dense ones need not be counted.
fn dense_totals(image: &[u8], f: Frame) -> DenseTotals
    requires { Uncounted image.now f }
    ensures { Totals image.now f.dl f.dc f.dp f.dense.nodes result }
{
    let nodes = f.dense.nodes + f.sparse.nodes;
    if nodes == 0 {
        return DenseTotals {
            children: 0,
            entries: 0,
        };
    }
    DenseTotals {
        children: dense_children(image, f),
        entries: nodes + f.leaves - 1 - f.sparse.entries,
    }
}

// An image that the check has accepted, with its frame.
pub fn accepted_image<'a>(image: &'a [u8]) -> AcceptedImage<'a>
    requires { verdict image.now ≡ 0 }
    ensures bytes { result.bytes.now ≡ image.entry.now }
    ensures frame { FrameOf image.entry.now result.frame }
{
    let mut frame = frame_at(read_header(image));
    frame.totals = dense_totals(image, frame);
    AcceptedImage {
        bytes: image,
        frame,
    }
}
