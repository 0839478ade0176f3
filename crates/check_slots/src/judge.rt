// Number 16 over an image that passed the numbers 11 to 15, and its frame.
ghost use Rattle.std.specs.Prelude.{◌≡◌};
ghost use Rattle.check_slots.specs.Passed.{PassedTo15, slots_pass};

use super::dense::dense_clear;
use super::last_levels::last_levels_clear;
use super::sparse::sparse_clear;
use image::FramedImage;

// Whether number 16 does not apply: an exact leaf's slot is zero, and no real bit is set past a key's 64th byte.
pub fn slots_valid(image: &FramedImage) -> bool
    requires { PassedTo15 image.now.bytes.now image.now.frame }
    ensures { result ≡ slots_pass image.now.bytes.now image.now.frame }
{
    let f = image.frame;
    if f.leaves == 0 {
        return true;
    }
    if f.width == 0 {
        return true;
    }
    if !dense_clear(image) {
        return false;
    }
    if !sparse_clear(image) {
        return false;
    }
    last_levels_clear(image)
}
