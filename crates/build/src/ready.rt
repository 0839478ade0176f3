// A key list that is accepted, with its settings: what the two calls build from.
ghost use Rattle.std.specs.Prelude.{◌≡◌, ℕ, ◌<◌, length, slice_index};
ghost use Rattle.spec.specs.Keys.{keys_of};
ghost use Rattle.spec.specs.Build.{judge, to_build};
ghost use Rattle.image.specs.Header.{asked};
ghost use Rattle.build.specs.Image.{image_of};

use image::Settings;

// A key list that is accepted with settings in range: its bytes, the settings, and how many keys it has. What is judged of both is that the image of the list's keys is to be built.
#[derive(Clone, Copy)]
pub struct ReadyList<'a> {
    pub bytes: &'a [u8],
    pub settings: Settings,
    pub count: usize,
    ghost in_range: { (i : ℕ) → slice_index bytes.now i < 256 },
    ghost judged: { judge bytes.now (asked settings) ≡ to_build (image_of bytes.now (asked settings)) },
    ghost counted: { count ≡ length (keys_of bytes.now) },
}
