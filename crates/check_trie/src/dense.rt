// The dense nodes, one by one, by the words of their rows.
ghost use Rattle.std.specs.Prelude.{◌≡◌, true, ◌&&◌, ◌*◌, length, ltb};
ghost use Rattle.spec.specs.Trie.{covered};
ghost use Rattle.bits.specs.Bits.{rank};
ghost use Rattle.check_levels.specs.DenseNodes.{dense_nodes_valid};
ghost use Rattle.check_levels.specs.Positions.{bits};
ghost use Rattle.check_trie.specs.DensePositions.{DenseSized, row_valid};

use super::cover::covered;
use bits::numbers::read64;
use bits::parts::part;
use bits::ranks::{bit_at, ones_of};
use image::{ROW_BITS, ROW_BYTES, ROW_WORDS};

// Whether a bit of a row is set.
fn some_set(row: &[u8]) -> bool
    requires { length row.now ≡ 32 }
    ensures { result ≡ ltb 0 (rank row.now 256) }
{
    0 < read64(row, 0) | read64(row, 8) | read64(row, 16) | read64(row, 24)
}

// Whether a node with these rows is valid: what continues is a label, and the node has the labels that it needs.
// Labels are counted only where nothing continues.
fn node_valid(labels: &[u8], children: &[u8], root: bool, exact: bool) -> bool
    requires { (length labels.now ≡ 32) × (length children.now ≡ 32) }
    ensures { result ≡ row_valid root exact labels.now children.now }
{
    if !covered(children, labels, ROW_WORDS) {
        return false;
    }
    if !some_set(labels) {
        return false;
    }
    if root {
        return !exact;
    }
    if exact | some_set(children) {
        return true;
    }
    ones_of(labels, ROW_BITS) != 1
}

// Whether the n dense nodes are valid, the first of which is the root.
pub fn dense_valid(dl: &[u8], dc: &[u8], dp: &[u8], n: usize) -> bool
    requires { DenseSized dl.now dc.now dp.now n }
    ensures { result ≡ covered (bits dc.now (256 * n)) (bits dl.now (256 * n)) && dense_nodes_valid true (bits dl.now (256 * n)) (bits dc.now (256 * n)) (bits dp.now n) }
{
    for i in 0..n {
        let labels = part(dl, ROW_BYTES * i, ROW_BYTES);
        let children = part(dc, ROW_BYTES * i, ROW_BYTES);
        let exact = bit_at(dp, i) == 1;
        if !node_valid(labels, children, i == 0, exact) {
            return false;
        }
    }
    true
}
