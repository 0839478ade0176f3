// Building in two public calls: a key list and settings give the image's length; with that length and an output they give the answer, and the image in the output.

#![tactic(auto)]

ghost use Rattle.std.specs.Prelude.{◌≡◌};
ghost use Rattle.spec.specs.Build.{image_length, build};
ghost use Rattle.image.specs.Header.{asked};
ghost use Rattle.image.specs.Outcomes.{outcome};
ghost use Rattle.build.specs.Build.{Judges, length_of};

use build_list::judge::judge_list;
use image::Settings;
use image::header_bytes::settings_in_range;
use image::refusals::Refusal;
use layout::{build_image, measure_image};
use ready::ReadyList;

pub mod ready; // ready.rt: an accepted key list with its settings
pub mod layout; // layout.rt: the plan of an image, its length, its header and its records

// Judges settings and list, for both calls: 5, a setting out of range; then record by record 4, 1, 2, 1, 3.
fn judge<'a>(list: &'a [u8], settings: Settings) -> Result<ReadyList<'a>, Refusal>
    ensures { Judges list.now (asked settings) result }
{
    if !settings_in_range(settings) {
        return Err(Refusal::SettingOutOfRange);
    }
    let count = judge_list(list)?;
    Ok(ReadyList {
        bytes: list,
        settings,
        count,
    })
}

// Gives the exact length of the image of a key list, and writes nothing; or the number with which list or settings are refused, 1 to 5.
pub fn image_length(list: &[u8], settings: Settings) -> Result<usize, Refusal>
    ensures { length_of result ≡ image_length list.now (asked settings) }
{
    Ok(measure_image(&judge(list, settings)?))
}

// Builds the image of a key list into the output, or refuses: list and settings are judged again, 1 to 5; then 8, the stated length is not the image's; then 7, the image is longer than the output.
pub fn build(list: &[u8], settings: Settings, stated: u64, out: &mut [u8]) -> Result<usize, Refusal>
    ensures { outcome result out.new ≡ build list.now (asked settings) stated out.old }
{
    build_image(&judge(list, settings)?, stated, out)
}
