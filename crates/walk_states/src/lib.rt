// A walk over an image: it is opened at a place, or refused, says what stands at its place, and moves on.

#![tactic(auto)]

ghost use Rattle.std.specs.Prelude.{◌≡◌, Ok, IfOk};
ghost use Rattle.spec.specs.Check.{verdict};
ghost use Rattle.spec.specs.Walk.{open_walk};
ghost use Rattle.image.specs.FrameOf.{FrameOf};
ghost use Rattle.walk_states.specs.Walks.{Gives, Walks, Opens, Moved};

use check_image::accept;
use image::refusals::Refusal;
use image::{AcceptedImage, Leaf};
use walk_cursor::locate::cursor_at;
use walk_cursor::values::padded;
use walk_cursor::{Cursor, leaf_at, step};

// Where a walk over an accepted image stands: the image, and the cursor at a leaf of it or behind the last one.
#[derive(Clone, Copy)]
pub struct Walker<'a> {
    pub image: AcceptedImage<'a>,
    pub cursor: Cursor,
}

// A walker at a place of an accepted image, to which the cursor goes straight, or the refusal of the place. It holds the image that was lent.
pub fn open_accepted<'a>(image: &AcceptedImage<'a>, place: usize) -> Result<Walker<'a>, Refusal>
    requires { verdict image.now.bytes.now ≡ 0 }
    ensures opens { Opens image.now.bytes.now place result }
    ensures slice { IfOk result (λ w. w.image ≡ image.now) }
{
    if image.frame.leaves < place {
        return Err(Refusal::PlaceOutOfRange);
    }
    Ok(Walker {
        image: *image,
        cursor: cursor_at(image, place),
    })
}

// A walker at a place of an image, or the refusal. The image is checked here, and not again. The walker holds the slice that was lent, and the frame of it.
pub fn open<'a>(image: &'a [u8], place: usize) -> Result<Walker<'a>, Refusal>
    ensures { IfOk result (λ w. (w.image.bytes ≡ image.entry) × FrameOf image.now w.image.frame) × Opens image.now place result }
{
    open_accepted(&accept(image)?, place)
}

impl<'a> Walker<'a> {
    // What the walk says where the walker stands: the leaf at the cursor, or none behind the last one. `open` and `next` give what is required.
    pub fn stand(&self) -> Option<Leaf>
        requires { Walks self.now }
        ensures { Gives (open_walk self.now.image.bytes.now self.now.cursor.place) (Ok result) }
    {
        if self.cursor.place < self.image.frame.leaves {
            return Some(padded(leaf_at(&self.image, self.cursor)));
        }
        None
    }

    // The walker at the next place. Behind the last leaf it stays. `open` and `next` give what is required.
    pub fn next(self) -> Walker<'a>
        requires { Walks self }
        ensures { Moved self.entry result }
    {
        if self.cursor.place == self.image.frame.leaves {
            return self;
        }
        Walker {
            image: self.image,
            cursor: step(&self.image, self.cursor),
        }
    }
}
