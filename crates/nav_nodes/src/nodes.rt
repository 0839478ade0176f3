// Nodes of an accepted image: what stands before one in level order, the entries of a sparse one, and whether it is an exact leaf. The search for branches, the questions and the walk rest on these.
ghost use Rattle.std.specs.Prelude.{◌≡◌, ◌+◌, ◌≤◌};
ghost use Rattle.spec.specs.Nodes.{is_exact};
ghost use Rattle.nav_nodes.specs.Slots.{node_at, leaves_before};
ghost use Rattle.nav_nodes.specs.Descent.{children_before};
ghost use Rattle.nav_nodes.specs.Accepted.{nodes};
ghost use Rattle.nav_nodes.specs.FoundBranch.{node_count, IsNode, IsSparse, IsCountsBefore, EntriesAt};

use super::ranks::{child_rank, entry_rank, exact_rank, label_rank, next_start, node_start};
use bits::ranks::bit_at;
use image::{AcceptedImage, BitPos, EXTRA_LABEL, NodeNum, ROW_BITS};

// The continuing branches and the leaves of the nodes before a node.
#[derive(Clone, Copy)]
pub struct CountsBefore {
    pub children: usize,
    pub leaves: usize,
}

// What stands before a dense node, or before the first sparse one.
fn dense_before(image: &AcceptedImage, m: NodeNum) -> CountsBefore
    requires { m.0 ≤ image.now.frame.dense.nodes }
    ensures { IsCountsBefore image.now.bytes.now image.now.frame m.0 result.children result.leaves }
{
    let at = BitPos(ROW_BITS * m.0);
    let labels = label_rank(image, at);
    let children = child_rank(image, at);
    let exacts = exact_rank(image, m);
    CountsBefore {
        children,
        leaves: labels - children + exacts,
    }
}

// What stands before a sparse node, or behind the last one: the totals of the dense nodes, and the entries before its start.
fn sparse_before(image: &AcceptedImage, m: NodeNum) -> CountsBefore
    requires { (image.now.frame.dense.nodes ≤ m.0) × (m.0 ≤ node_count image.now.frame) }
    ensures { IsCountsBefore image.now.bytes.now image.now.frame m.0 result.children result.leaves }
{
    let start = node_start(image, m);
    let children = entry_rank(image, start);
    CountsBefore {
        children: image.frame.totals.children + children,
        leaves: image.frame.totals.entries - image.frame.totals.children + (start.0 - children),
    }
}

// What stands before a node, or behind the last one.
pub fn counts_before(image: &AcceptedImage, m: NodeNum) -> CountsBefore
    requires { m.0 ≤ node_count image.now.frame }
    ensures { IsCountsBefore image.now.bytes.now image.now.frame m.0 result.children result.leaves }
{
    if m.0 <= image.frame.dense.nodes {
        return dense_before(image, m);
    }
    sparse_before(image, m)
}

// The entries of the nodes before a node, or of all nodes: branches and exact leaves together. Where it is known how many of them continue, the leaves follow without a rank of those.
pub fn entries_before(image: &AcceptedImage, m: NodeNum) -> usize
    requires { m.0 ≤ node_count image.now.frame }
    ensures { result ≡ leaves_before (nodes image.now.bytes.now image.now.frame) m.0 + children_before (nodes image.now.bytes.now image.now.frame) m.0 }
{
    if m.0 < image.frame.dense.nodes {
        let labels = label_rank(image, BitPos(ROW_BITS * m.0));
        let exacts = exact_rank(image, m);
        return labels + exacts;
    }
    let start = node_start(image, m);
    image.frame.totals.entries + start.0
}

// The entries of a sparse node: whether the first is the extra one of an exact leaf, the first entry of its branches, and the entry behind the last.
#[derive(Clone, Copy)]
pub struct Entries {
    pub exact: bool,
    pub first: BitPos,
    pub end: BitPos,
}

// The entries of a sparse node. A first FF that is not alone is the extra one of an exact leaf; a sole FF is a label.
pub fn entries_of(image: &AcceptedImage, m: NodeNum) -> Entries
    requires { IsSparse image.now.bytes.now image.now.frame m.0 }
    ensures { EntriesAt image.now.bytes.now image.now.frame m.0 result.exact result.first.0 result.end.0 }
{
    let start = node_start(image, m);
    let end = next_start(image, start);
    let exact = start.0 + 2 <= end.0 && image.bytes[image.frame.sl + start.0] == EXTRA_LABEL;
    Entries {
        exact,
        first: BitPos(start.0 + usize::from(exact)),
        end,
    }
}

// Whether a node is an exact leaf.
pub fn is_exact(image: &AcceptedImage, m: NodeNum) -> bool
    requires { IsNode image.now.bytes.now image.now.frame m.0 }
    ensures { result ≡ is_exact (node_at (nodes image.now.bytes.now image.now.frame) m.0) }
{
    if m.0 < image.frame.dense.nodes {
        return bit_at(&image.bytes[image.frame.dp..], m.0) == 1;
    }
    entries_of(image, m).exact
}
