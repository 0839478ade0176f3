// The public walk over the leaves of an accepted image, in key order, through a walker: what it says at a place, and at the next.

#![tactic(auto)]

ghost use Rattle.spec.specs.Walk.{open_walk, next};
ghost use Rattle.walk_states.specs.Walks.{Gives};

use image::Leaf;
use image::refusals::Refusal;
use walker::open;

pub mod walker; // walker.rt: the walker, under the name by which programs know it

// What a walk that is opened at a place says there: a refusal, none for done, or the leaf whose number in key order is the place.
pub fn walk(image: &[u8], place: usize) -> Result<Option<Leaf>, Refusal>
    ensures { Gives (open_walk image.now place) result }
{
    let opened = open(image, place)?;
    Ok(opened.stand())
}

// What a walk that is opened at a place says after its next move; done and a refusal stay.
pub fn next(image: &[u8], place: usize) -> Result<Option<Leaf>, Refusal>
    ensures { Gives (next image.now place) result }
{
    let opened = open(image, place)?;
    let moved = opened.next();
    Ok(moved.stand())
}
