// What the sparse entry at a known position tells: the next branch of a node, the first branch of a node that starts there, the child behind it, and its slot.
// Position 0 stands for a position that is not known, and dense nodes have none: there navigation looks it up. A walk that keeps its entries rests on these.
ghost use Rattle.std.specs.Prelude.{◌≡◌, ◌≤◌, ◌<◌};
ghost use Rattle.nav_nodes.specs.Positions.{child_at, slot_at};
ghost use Rattle.nav_nodes.specs.NextBranch.{IsNextBranch};
ghost use Rattle.nav_nodes.specs.FoundBranch.{IsNode, IsPosition, IsFirstBranch};
ghost use Rattle.walk_path.specs.Entries.{start_of, child_from, TellsEnd, NextEntry, BehindNode, StartsAt};

use bits::ranks::bit_at;
use image::{AcceptedImage, BitPos, EXTRA_LABEL, NodeNum, ValuePos};
use nav_branches::branches::{branch_at, next_branch};
use nav_branches::first::first_branch;
use nav_nodes::behind::child;
use nav_nodes::ranks::{entry_rank, exact_rank, label_rank, node_start};
use nav_nodes::{BranchKind, FirstBranch, NextBranch};

// The extra label of an exact leaf, as a number.
const EXTRA: usize = EXTRA_LABEL as usize;

// A sparse entry, and the node to which the first continuing entry from it on leads.
#[derive(Clone, Copy)]
pub struct Entry {
    pub at: BitPos,
    pub child: NodeNum,
}

// Whether an entry that is behind the first one of a sparse node belongs to the node: it does if it starts no node.
fn goes_on(image: &AcceptedImage, at: BitPos) -> bool
    ensures { TellsEnd image.now.bytes.now image.now.frame at.0 result }
{
    if at.0 >= image.frame.sparse.entries {
        return false;
    }
    bit_at(&image.bytes[image.frame.sb..], at.0) == 0
}

// The first branch of a node whose label is not below y; `at` is the entry where it stands, if it is there, and is behind the first entry of the node.
pub fn next_at(image: &AcceptedImage, m: NodeNum, y: usize, at: BitPos) -> NextBranch
    requires { IsNode image.now.bytes.now image.now.frame m.0 × (y ≤ 256) × NextEntry image.now.bytes.now image.now.frame m.0 y at.0 }
    ensures { IsNextBranch image.now.bytes.now image.now.frame m.0 y result.kind result.label result.at.0 }
{
    if at.0 == 0 {
        return next_branch(image, m, y);
    }
    if goes_on(image, at) {
        return branch_at(image, at);
    }
    NextBranch {
        kind: BranchKind::Absent,
        label: 0,
        at,
    }
}

// The first branch of a node, and whether it is an exact leaf; a sparse node starts at the entry `at`.
pub fn first_at(image: &AcceptedImage, m: NodeNum, at: BitPos) -> FirstBranch
    requires { IsNode image.now.bytes.now image.now.frame m.0 × (image.now.frame.dense.nodes ≤ m.0 → at.0 ≡ start_of image.now.bytes.now image.now.frame m.0) }
    ensures { IsFirstBranch image.now.bytes.now image.now.frame m.0 result }
{
    if m.0 < image.frame.dense.nodes {
        return first_branch(image, m);
    }
    let first = branch_at(image, at);
    if first.label == EXTRA && goes_on(image, BitPos(at.0 + 1)) {
        return FirstBranch {
            exact: true,
            branch: branch_at(image, BitPos(at.0 + 1)),
        };
    }
    FirstBranch {
        exact: false,
        branch: first,
    }
}

// Where a node starts among the entries, and the node behind its first continuing branch. `last` is the last node that was visited on its level, and `known` the entry behind that node, if it is known.
pub fn start_at(image: &AcceptedImage, m: NodeNum, last: NodeNum, known: Entry) -> Entry
    requires { IsNode image.now.bytes.now image.now.frame m.0 × (0 < m.0) × BehindNode image.now.bytes.now image.now.frame last.0 known }
    ensures { image.now.frame.dense.nodes ≤ m.0 → StartsAt image.now.bytes.now image.now.frame m.0 result }
{
    if m.0 < image.frame.dense.nodes {
        return Entry {
            at: BitPos(0),
            child: NodeNum(0),
        };
    }
    if known.at.0 != 0 && m.0 - 1 == last.0 {
        return known;
    }
    let start = node_start(image, m);
    Entry {
        at: start,
        child: NodeNum(image.frame.totals.children + entry_rank(image, start) + 1),
    }
}

// The node behind a branch that continues, by its position; `known` is an entry of the node, if one is known.
pub fn child_at(image: &AcceptedImage, m: NodeNum, at: BitPos, known: Entry) -> NodeNum
    requires { IsPosition image.now.bytes.now image.now.frame m.0 at.0 × (0 < known.at.0 → (image.now.frame.dense.nodes ≤ m.0) × (known.child.0 ≡ child_from image.now.bytes.now image.now.frame known.at.0)) }
    ensures { result.0 ≡ child_at image.now.bytes.now image.now.frame m.0 at.0 }
{
    if known.at.0 != 0 && known.at.0 == at.0 {
        return known.child;
    }
    child(image, m, at)
}

// The slot of the leaf behind a branch that ends, by the node behind the first continuing branch from it on.
pub fn slot_at(image: &AcceptedImage, m: NodeNum, at: BitPos, child: NodeNum) -> ValuePos
    requires { IsPosition image.now.bytes.now image.now.frame m.0 at.0 × (child.0 ≡ child_at image.now.bytes.now image.now.frame m.0 at.0) }
    ensures { result.0 ≡ slot_at image.now.bytes.now image.now.frame m.0 at.0 }
{
    if m.0 < image.frame.dense.nodes {
        let labels = label_rank(image, at);
        return ValuePos(labels + 1 - child.0 + exact_rank(image, NodeNum(m.0 + 1)));
    }
    ValuePos(image.frame.totals.entries + at.0 + 1 - child.0)
}
