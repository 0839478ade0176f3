// The cursor at a place of a walk, straight from the root: on each level the branch is taken behind which the leaf at the place stands.
// How many leaves stand before a branch is told by sums of slot numbers, as the place of a seek is, so that a level costs a few operations and no leaf before the place is visited.
ghost use Rattle.std.specs.Prelude.{◌≡◌, ◌≤◌, length};
ghost use Rattle.walk_path.specs.Levels.{numbered};
ghost use Rattle.walk_cursor.specs.Stands.{StandsAt};

use super::descent::descend_to;
use super::{Cursor, at_no_leaf};
use image::AcceptedImage;
use nav_branches::{LeafEnd, Path};
use walk_path::moves::Trail;

// The numbers of a path's nodes.
fn node_numbers(path: Path) -> [usize; 64]
    requires { length path.nodes ≡ 64 }
    ensures { numbered result ≡ path.nodes }
{
    let mut numbers = [0usize; 64];
    for i in 0..64 {
        numbers[i] = path.nodes[i].0;
    }
    numbers
}

// The cursor at a place of an accepted image. Nothing is known yet of the entries of its levels.
pub fn cursor_at(image: &AcceptedImage, place: usize) -> Cursor
    requires { place ≤ image.now.frame.leaves }
    ensures { StandsAt image.now.bytes.now image.now.frame place result }
{
    if place == image.frame.leaves {
        return at_no_leaf(place);
    }
    let found = descend_to(image, place);
    let nodes = node_numbers(found.path);
    let labels = found.path.labels;
    Cursor {
        trail: Trail {
            nodes,
            entries: [0usize; 128],
            labels,
        },
        end: LeafEnd {
            depth: found.depth,
            stop: found.stop,
        },
        place,
    }
}
