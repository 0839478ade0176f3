// An image as it is read: with its frame, and with a verdict on tables that is given later.
ghost use Rattle.std.specs.Prelude.{◌≡◌};
ghost use Rattle.check_tables.specs.Tables.{dense_agrees};

use image::FramedImage;

// An image with its frame, and whether the rank tables of its dense nodes are right, which is judged later.
#[derive(Clone, Copy)]
pub struct RankedFrame<'a> {
    pub image: FramedImage<'a>,
    pub agrees: bool,
    ghost judged: { agrees ≡ dense_agrees image.bytes.now image.frame },
}
