// What lies behind a branch of an accepted image: the child that it continues to, and the slot of the leaf at which it ends. The questions and the walk rest on these.
ghost use Rattle.std.specs.Prelude.{◌≡◌};
ghost use Rattle.nav_nodes.specs.Positions.{child_at, slot_at};
ghost use Rattle.nav_nodes.specs.FoundBranch.{IsPosition, BehindBranch};

use super::ranks::{child_rank, entry_rank, exact_rank, label_rank};
use image::{AcceptedImage, BitPos, NodeNum, ValuePos};

// The node behind a branch that continues: one more than the continuing branches before it.
pub fn child(image: &AcceptedImage, m: NodeNum, at: BitPos) -> NodeNum
    requires { IsPosition image.now.bytes.now image.now.frame m.0 at.0 }
    ensures { result.0 ≡ child_at image.now.bytes.now image.now.frame m.0 at.0 }
{
    if m.0 < image.frame.dense.nodes {
        return NodeNum(child_rank(image, at) + 1);
    }
    NodeNum(image.frame.totals.children + entry_rank(image, at) + 1)
}

// The slot of the leaf behind a branch that ends: an exact leaf stands before its node's branches.
pub fn slot(image: &AcceptedImage, m: NodeNum, at: BitPos) -> ValuePos
    requires { IsPosition image.now.bytes.now image.now.frame m.0 at.0 }
    ensures { result.0 ≡ slot_at image.now.bytes.now image.now.frame m.0 at.0 }
{
    if m.0 < image.frame.dense.nodes {
        let labels = label_rank(image, at);
        let children = child_rank(image, at);
        return ValuePos(labels - children + exact_rank(image, NodeNum(m.0 + 1)));
    }
    ValuePos(
        image.frame.totals.entries - image.frame.totals.children + (at.0 - entry_rank(image, at)),
    )
}

// The child behind a branch that continues, and the slot of the leaf behind one that ends.
#[derive(Clone, Copy)]
pub struct Behind {
    pub child: NodeNum,
    pub slot: ValuePos,
}

// The child and the slot behind a branch, both from the same ranks.
pub fn child_and_slot(image: &AcceptedImage, m: NodeNum, at: BitPos) -> Behind
    requires { IsPosition image.now.bytes.now image.now.frame m.0 at.0 }
    ensures { BehindBranch image.now.bytes.now image.now.frame m.0 at.0 result.child.0 result.slot.0 }
{
    if m.0 < image.frame.dense.nodes {
        let labels = label_rank(image, at);
        let children = child_rank(image, at);
        let exacts = exact_rank(image, NodeNum(m.0 + 1));
        return Behind {
            child: NodeNum(children + 1),
            slot: ValuePos(labels - children + exacts),
        };
    }
    let children = entry_rank(image, at);
    Behind {
        child: NodeNum(image.frame.totals.children + children + 1),
        slot: ValuePos(
            image.frame.totals.entries - image.frame.totals.children + (at.0 - children),
        ),
    }
}
