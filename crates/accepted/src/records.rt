// The leaves of an image that the check has accepted, as records in a buffer.
ghost use Rattle.std.specs.Prelude.{◌≡◌};
ghost use Rattle.spec.specs.Check.{verdict};
ghost use Rattle.spec.specs.WalkRecords.{walk_records};
ghost use Rattle.image.specs.Outcomes.{outcome};

use super::frame::accepted_image;
use image::refusals::Refusal;
use walk_records::write_leaves;
use walk_states::open_accepted;

// Writes the records of the leaves from a place on, as `write_records` does, over an image that is not checked again.
pub fn write_accepted(image: &[u8], place: usize, out: &mut [u8]) -> Result<usize, Refusal>
    requires { verdict image.now ≡ 0 }
    ensures { outcome result out.new ≡ walk_records image.now place out.old }
{
    let from = open_accepted(&accepted_image(image), place)?;
    Ok(write_leaves(&from, out))
}
