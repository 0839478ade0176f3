// The leaf cursor of a walk: from leaf to leaf of an accepted image in key order. It keeps the path from the root and where it stands on each level, so that a whole walk goes down and up each branch once, and takes neither rank nor select where a level was visited before.

#![tactic(auto)]

ghost use Rattle.std.specs.Prelude.{◌≡◌, ◌+◌, ◌<◌};
ghost use Rattle.spec.specs.Bytes.{low_bits};
ghost use Rattle.nav_nodes.specs.Slots.{slot_of};
ghost use Rattle.nav_nodes.specs.Accepted.{nodes};
ghost use Rattle.walk_cursor.specs.Stands.{AtLeaf, StandsAt, NoLeaf, CanAdvance, Advances, HasEnd, SlotInside, ResumesFrom, ReadsLeaf, IsLeaf};

use image::{AcceptedImage, Leaf, ValuePos};
use nav_branches::branches::is_there;
use nav_branches::{LeafEnd, LeafStop};
use query_descent::suffix::slot_bits;
use walk_path::moves::{Resume, Trail, climb, first_behind};

pub mod branch; // branch.rt: the branch of a node before which so many of its leaves stand
pub mod descent; // descent.rt: the path from the root to the leaf at a place
pub mod locate; // locate.rt: the cursor at a place, straight from the root
pub mod values; // values.rt: a leaf by value, with zeros for what it does not settle

// A place of a walk: what is kept of the levels of the path to the leaf, whose labels are the cut key, where the path ends, and the leaf's number in key order. Behind the last leaf the path ends nowhere.
#[derive(Clone, Copy)]
pub struct Cursor {
    pub trail: Trail,
    pub end: LeafEnd,
    pub place: usize,
}

// The cursor at no leaf.
pub fn at_no_leaf(place: usize) -> Cursor
    ensures { NoLeaf place result }
{
    Cursor {
        trail: Trail {
            nodes: [0usize; 64],
            entries: [0usize; 128],
            labels: [0u8; 64],
        },
        end: LeafEnd {
            depth: 0,
            stop: LeafStop::Nowhere,
        },
        place,
    }
}

// Where the search for the leaf behind one starts: at the first branch of an exact leaf, or behind the label of an open one.
fn resume(labels: &[u8; 64], end: LeafEnd) -> Resume
    requires { HasEnd end }
    ensures { ResumesFrom labels.now end result }
{
    let LeafStop::Open(_) = end.stop else {
        return Resume {
            depth: end.depth,
            from: 0,
        };
    };
    let depth = end.depth - 1;
    Resume {
        depth,
        from: usize::from(labels[depth]) + 1,
    }
}

// The leaf behind the one where the path ends: up to the next higher branch, and down to the first leaf behind it.
pub fn advance(image: &AcceptedImage, trail: &mut Trail, end: LeafEnd) -> LeafEnd
    requires { CanAdvance image.now.bytes.now image.now.frame trail.old end }
    ensures { Advances image.now.bytes.now image.now.frame trail.old end trail.new result }
{
    let from = resume(&trail.labels, end);
    let higher = climb(image, trail, from);
    if is_there(higher.branch.kind) {
        return first_behind(image, trail, higher);
    }
    LeafEnd {
        depth: 0,
        stop: LeafStop::Nowhere,
    }
}

// The cursor at the leaf behind the one where it stands.
pub fn step(image: &AcceptedImage, c: Cursor) -> Cursor
    requires { AtLeaf image.now.bytes.now image.now.frame c }
    ensures { StandsAt image.now.bytes.now image.now.frame (c.place + 1) result }
{
    let mut trail = c.trail;
    let end = advance(image, &mut trail, c.end);
    Cursor {
        trail,
        end,
        place: c.place + 1,
    }
}

// The bits of a slot as a number, the first bit lowest; what stands above the width's bits is not said.
fn suffix(image: &AcceptedImage, slot: ValuePos) -> usize
    requires { slot.0 < image.now.frame.leaves }
    ensures { low_bits image.now.frame.width result ≡ slot_of image.now.frame.width (nodes image.now.bytes.now image.now.frame) slot.0 }
{
    if image.frame.width == 0 {
        return 0;
    }
    slot_bits(image, slot, 0) as usize
}

// The leaf where a path with these labels ends. The suffix of an exact leaf is all zeros.
pub fn leaf_of(image: &AcceptedImage, labels: [u8; 64], end: LeafEnd) -> Leaf
    requires { SlotInside image.now.frame end }
    ensures { ReadsLeaf image.now.bytes.now image.now.frame labels end result }
{
    let LeafStop::Open(slot) = end.stop else {
        return Leaf {
            cut: labels,
            len: end.depth,
            exact: true,
            suffix: 0,
            width: image.frame.width,
        };
    };
    Leaf {
        cut: labels,
        len: end.depth,
        exact: false,
        suffix: suffix(image, slot),
        width: image.frame.width,
    }
}

// The leaf where the cursor stands.
pub fn leaf_at(image: &AcceptedImage, c: Cursor) -> Leaf
    requires { AtLeaf image.now.bytes.now image.now.frame c }
    ensures { IsLeaf image.now.bytes.now c.place result }
{
    leaf_of(image, c.trail.labels, c.end)
}
