// Branches of a node of an accepted image: found by their label, the first one from a label on, and those of a sparse node by their entry.
ghost use Rattle.std.specs.Prelude.{◌≡◌, ◌+◌, ◌-◌, ◌≤◌, ◌<◌, length, get_or, drop, eqb};
ghost use Rattle.nav_nodes.specs.NextLabel.{first_kind, kind_there, is_there};
ghost use Rattle.nav_nodes.specs.NextBranch.{IsNextBranch, EntryRead, EntryBranch};
ghost use Rattle.nav_nodes.specs.FoundBranch.{IsNode, IsSparse, FoundBranch};
ghost use Rattle.nav_nodes.specs.Positions.{branches, branch_index};

use bits::ranks::bit_at;
use bits_select::select::next_one;
use image::{AcceptedImage, BitPos, NodeNum, ROW_BITS};
use nav_nodes::nodes::entries_of;
use nav_nodes::{BranchKind, Found, NextBranch};

// The first of the labels from `from` to `to`, which ascend, that is not below y, or the end.
fn search(labels: &[u8], from: usize, to: usize, y: usize) -> usize
    requires { (from ≤ to) × (to ≤ length labels.now) }
    ensures { (from ≤ result) × (result ≤ to) × (from < result → get_or labels.now (result - 1) 0 < y) × (result < to → y ≤ get_or labels.now result 0) }
{
    let mut lo = from;
    let mut hi = to;
    while lo < hi {
        let mid = lo + (hi - lo) / 2;
        if usize::from(labels[mid]) < y {
            lo = mid + 1;
        } else {
            hi = mid;
        }
    }
    lo
}

// The kind of a branch that is there, by its continuing bit.
pub fn kind_there(continues: usize) -> BranchKind
    ensures { result ≡ kind_there (eqb continues 1) }
{
    if continues == 1 {
        BranchKind::Child
    } else {
        BranchKind::Leaf
    }
}

// The branch of a sparse node at an entry.
pub fn branch_at(image: &AcceptedImage, at: BitPos) -> NextBranch
    requires { at.0 < image.now.frame.sparse.entries }
    ensures { EntryRead image.now.bytes.now image.now.frame at.0 result }
{
    NextBranch {
        kind: kind_there(bit_at(&image.bytes[image.frame.sc..], at.0)),
        label: usize::from(image.bytes[image.frame.sl + at.0]),
        at,
    }
}

// The branch of a sparse node at an entry, or none if the node's entries end there.
pub fn entry_branch(image: &AcceptedImage, at: BitPos, end: BitPos) -> NextBranch
    requires { end.0 ≤ image.now.frame.sparse.entries }
    ensures { EntryBranch image.now.bytes.now image.now.frame at.0 end.0 result }
{
    if at.0 >= end.0 {
        return NextBranch {
            kind: BranchKind::Absent,
            label: 0,
            at,
        };
    }
    branch_at(image, at)
}

// Whether a kind is that of a branch that is there.
pub fn is_there(kind: BranchKind) -> bool
    ensures { result ≡ is_there kind }
{
    !matches!(kind, BranchKind::Absent)
}

// What a dense node has at the label y.
fn find_dense(image: &AcceptedImage, m: NodeNum, y: usize) -> Found
    requires { (m.0 < image.now.frame.dense.nodes) × (y < 256) }
    ensures { FoundBranch image.now.bytes.now image.now.frame m.0 y result }
{
    let first = ROW_BITS * m.0;
    let at = first + y;
    let label = bit_at(&image.bytes[image.frame.dl..], at);
    let continues = bit_at(&image.bytes[image.frame.dc..], at);
    Found {
        kind: if label == 0 {
            BranchKind::Absent
        } else {
            kind_there(continues)
        },
        at: BitPos(at),
        end: BitPos(first + ROW_BITS),
    }
}

// What a sparse node has at the label y.
fn find_sparse(image: &AcceptedImage, m: NodeNum, y: usize) -> Found
    requires { IsSparse image.now.bytes.now image.now.frame m.0 }
    ensures { FoundBranch image.now.bytes.now image.now.frame m.0 y result }
{
    let e = entries_of(image, m);
    let p = search(&image.bytes[image.frame.sl..], e.first.0, e.end.0, y);
    let kind = if p < e.end.0 && usize::from(image.bytes[image.frame.sl + p]) == y {
        kind_there(bit_at(&image.bytes[image.frame.sc..], p))
    } else {
        BranchKind::Absent
    };
    Found {
        kind,
        at: BitPos(p),
        end: e.end,
    }
}

// What a node has at the label y.
pub fn find(image: &AcceptedImage, m: NodeNum, y: usize) -> Found
    requires { IsNode image.now.bytes.now image.now.frame m.0 × (y < 256) }
    ensures { FoundBranch image.now.bytes.now image.now.frame m.0 y result }
{
    if m.0 < image.frame.dense.nodes {
        return find_dense(image, m, y);
    }
    find_sparse(image, m, y)
}

// The first branch of a dense node whose label is not below y: the next one of its label map.
fn next_dense(image: &AcceptedImage, m: NodeNum, y: usize) -> NextBranch
    requires { (m.0 < image.now.frame.dense.nodes) × (y ≤ 256) }
    ensures { IsNextBranch image.now.bytes.now image.now.frame m.0 y result.kind result.label result.at.0 }
{
    let first = ROW_BITS * m.0;
    let from = first + y;
    let end = first + ROW_BITS;
    let p = next_one(&image.bytes[image.frame.dl..], end, from);
    if p >= end {
        return NextBranch {
            kind: BranchKind::Absent,
            label: 0,
            at: BitPos(p),
        };
    }
    let continues = bit_at(&image.bytes[image.frame.dc..], p);
    NextBranch {
        kind: kind_there(continues),
        label: p - first,
        at: BitPos(p),
    }
}

// The first branch of a sparse node whose label is not below y.
fn next_sparse(image: &AcceptedImage, m: NodeNum, y: usize) -> NextBranch
    requires { IsSparse image.now.bytes.now image.now.frame m.0 }
    ensures { IsNextBranch image.now.bytes.now image.now.frame m.0 y result.kind result.label result.at.0 }
{
    let e = entries_of(image, m);
    let p = search(&image.bytes[image.frame.sl..], e.first.0, e.end.0, y);
    entry_branch(image, BitPos(p), e.end)
}

// The first branch of a node whose label is not below y.
pub fn next_branch(image: &AcceptedImage, m: NodeNum, y: usize) -> NextBranch
    requires { IsNode image.now.bytes.now image.now.frame m.0 × (y ≤ 256) }
    ensures { IsNextBranch image.now.bytes.now image.now.frame m.0 y result.kind result.label result.at.0 }
{
    if m.0 < image.frame.dense.nodes {
        return next_dense(image, m, y);
    }
    next_sparse(image, m, y)
}

// Whether a node has a branch with a label above y, where b is what it has at y. In a sparse node the branch's position tells; a dense one is searched.
pub fn has_higher(image: &AcceptedImage, m: NodeNum, y: usize, b: Found) -> bool
    requires { IsNode image.now.bytes.now image.now.frame m.0 × (y < 256) × FoundBranch image.now.bytes.now image.now.frame m.0 y b }
    ensures { result ≡ is_there (first_kind (drop (branch_index image.now.bytes.now image.now.frame m.0 (y + 1)) (branches image.now.bytes.now image.now.frame m.0))) }
{
    if m.0 < image.frame.dense.nodes {
        return is_there(next_dense(image, m, y + 1).kind);
    }
    b.at.0 + usize::from(is_there(b.kind)) < b.end.0
}
