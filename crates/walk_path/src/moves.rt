// From leaf to leaf in key order: up the path to the next higher branch, and down to the first leaf behind it.
ghost use Rattle.std.specs.Prelude.{◌≡◌, ◌<◌};
ghost use Rattle.walk_path.specs.Entries.{BehindNode};
ghost use Rattle.walk_path.specs.Levels.{CanClimb, Climbs, CanDescend, Descended, OnNode, Enters, BehindTaken, entry_on, with_entry};

use super::entries::{Entry, child_at, first_at, next_at, slot_at, start_at};
use image::{AcceptedImage, BitPos, Frame, NodeNum};
use nav_branches::branches::is_there;
use nav_branches::paths::Higher;
use nav_branches::{LeafEnd, LeafStop};
use nav_nodes::{BranchKind, FirstBranch, NextBranch};

// What a walk keeps for each level: the node last visited there; for sparse levels the entry behind the last one visited (the first 64 of `entries`) with the child from it on (the others); and the label of the path.
#[derive(Clone, Copy)]
pub struct Trail {
    pub nodes: [usize; 64],
    pub entries: [usize; 128],
    pub labels: [u8; 64],
}

// Where the search for the next leaf starts: the depth of a node of the path, and the first of its labels that is not behind.
#[derive(Clone, Copy)]
pub struct Resume {
    pub depth: usize,
    pub from: usize,
}

// The first branch of a node that is entered, and its entry with the child from it on.
#[derive(Clone, Copy)]
pub struct Entered {
    pub first: FirstBranch,
    pub entry: Entry,
}

// The next higher branch of the path. Its levels stay as they are: a node without a branch left is left behind its last entry.
pub fn climb(image: &AcceptedImage, trail: &Trail, r: Resume) -> Higher
    requires { CanClimb image.now.bytes.now image.now.frame trail.now.nodes trail.now.entries trail.now.labels r }
    ensures { Climbs image.now.bytes.now image.now.frame trail.now.nodes trail.now.entries trail.now.labels r result }
{
    let mut d = r.depth;
    let mut y = r.from;
    loop {
        let branch = next_at(image, NodeNum(trail.nodes[d]), y, BitPos(trail.entries[d]));
        if is_there(branch.kind) || d == 0 {
            return Higher { depth: d, branch };
        }
        d -= 1;
        y = usize::from(trail.labels[d]) + 1;
    }
}

// The first branch of node m of a level, where `last` is the node last visited there and `known` the entry behind it.
fn enter(image: &AcceptedImage, m: NodeNum, last: NodeNum, known: Entry) -> Entered
    requires { (0 < m.0) × OnNode image.now.bytes.now image.now.frame m.0 × BehindNode image.now.bytes.now image.now.frame last.0 known }
    ensures { Enters image.now.bytes.now image.now.frame m.0 result }
{
    let start = start_at(image, m, last, known);
    let first = first_at(image, m, start.at);
    let branch = first.branch;
    let at = branch.at;
    if m.0 < image.frame.dense.nodes {
        let none = Entry {
            at: BitPos(0),
            child: NodeNum(0),
        };
        let child = child_at(image, m, at, none);
        let entry = Entry {
            at: BitPos(0),
            child,
        };
        return Entered { first, entry };
    }
    let child = start.child;
    let entry = Entry { at, child };
    Entered { first, entry }
}

// The entry that is kept for a level.
fn entry_on(entries: &[usize; 128], level: usize) -> Entry
    requires { level < 64 }
    ensures { result ≡ entry_on entries.now level }
{
    Entry {
        at: BitPos(entries[level]),
        child: NodeNum(entries[64 + level]),
    }
}

// Another entry is kept for a level.
fn keep_entry(entries: &mut [usize; 128], level: usize, e: Entry)
    requires { level < 64 }
    ensures { entries.new ≡ with_entry entries.old level e }
{
    entries[level] = e.at.0;
    entries[64 + level] = e.child.0;
}

// The entry behind a branch of node m, with the child from it on; a dense node has none.
fn entry_behind(f: Frame, m: NodeNum, b: NextBranch, child: NodeNum) -> Entry
    requires { (b.at.0 < 4294967296) × (child.0 < 4294967296) }
    ensures { BehindTaken f m.0 b child.0 result }
{
    if m.0 < f.dense.nodes {
        return Entry {
            at: BitPos(0),
            child: NodeNum(0),
        };
    }
    let mut next = child;
    if matches!(b.kind, BranchKind::Child) {
        next = NodeNum(child.0 + 1);
    }
    Entry {
        at: BitPos(b.at.0 + 1),
        child: next,
    }
}

// The first leaf behind a branch of the path. On each level that is entered the node is the next one, and its first entry the one behind the last.
pub fn first_behind(image: &AcceptedImage, trail: &mut Trail, from: Higher) -> LeafEnd
    requires { CanDescend image.now.bytes.now image.now.frame trail.old.nodes trail.old.entries trail.old.labels from }
    ensures { Descended image.now.bytes.now image.now.frame trail.old.nodes trail.old.labels from.depth from.branch.label trail.new.nodes trail.new.entries trail.new.labels result }
{
    let mut d = from.depth;
    let mut b = from.branch;
    let mut c = child_at(
        image,
        NodeNum(trail.nodes[d]),
        b.at,
        entry_on(&trail.entries, d),
    );
    loop {
        let m = NodeNum(trail.nodes[d]);
        let at = b.at;
        let kind = b.kind;
        trail.labels[d] = b.label as u8;
        keep_entry(&mut trail.entries, d, entry_behind(image.frame, m, b, c));
        d += 1;
        let BranchKind::Child = kind else {
            let stop = LeafStop::Open(slot_at(image, m, at, c));
            return LeafEnd { depth: d, stop };
        };
        let next = enter(
            image,
            c,
            NodeNum(trail.nodes[d]),
            entry_on(&trail.entries, d),
        );
        let first = next.first;
        let entry = next.entry;
        trail.nodes[d] = c.0;
        keep_entry(&mut trail.entries, d, entry);
        if first.exact {
            let stop = LeafStop::Exact;
            return LeafEnd { depth: d, stop };
        }
        b = first.branch;
        c = entry.child;
    }
}
