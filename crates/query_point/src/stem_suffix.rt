// The suffix of an open leaf against a stem that its cut key begins.
ghost use Rattle.std.specs.Prelude.{◌≡◌, ◌≤◌, ◌<◌, length, drop};
ghost use Rattle.nav_nodes.specs.Slots.{slot_of};
ghost use Rattle.nav_nodes.specs.Accepted.{nodes};
ghost use Rattle.query_point.specs.StemLeaves.{slot_agrees};

use image::{AcceptedImage, ValuePos};
use query_descent::suffix::real_byte;

// Whether the leaf has a possible key that begins with the stem, whose first d bytes are the cut key: the real bits of its suffix and the rest of the stem agree as far as both go.
pub fn real_agrees(image: &AcceptedImage, slot: ValuePos, stem: &[u8], d: usize) -> bool
    requires { (slot.0 < image.now.frame.leaves) × (d ≤ length stem.now) × (length stem.now ≤ 64) }
    ensures { result ≡ slot_agrees image.now.frame.hash_width (slot_of image.now.frame.width (nodes image.now.bytes.now image.now.frame) slot.0) (drop d stem.now) }
{
    let n = image.frame.real_width;
    for i in d..stem.len() {
        if 8 * (i - d) >= n {
            return true;
        }
        let y = usize::from(stem[i]);
        if y < real_byte(image, slot, i - d, false) {
            return false;
        }
        if real_byte(image, slot, i - d, true) < y {
            return false;
        }
    }
    true
}
