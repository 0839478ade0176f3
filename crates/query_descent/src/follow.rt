// The descent that the questions share: where the bytes of a key lead from the root of an accepted image.
ghost use Rattle.std.specs.Prelude.{◌≤◌, length};
ghost use Rattle.query_descent.specs.Leads.{LeadsTo};

use super::KeyEnd;
use image::{AcceptedImage, NodeNum};
use nav_branches::branches::find;
use nav_nodes::BranchKind;
use nav_nodes::behind::child;

// Where the first n bytes of a key lead, by one label search a level. No leaf is looked at: whether a node is an exact leaf, and what slot stands behind a branch, is for the question to ask.
pub fn follow(image: &AcceptedImage, key: &[u8], n: usize) -> KeyEnd
    requires { n ≤ length key.now }
    ensures { LeadsTo image.now.bytes.now image.now.frame key.now n result }
{
    if image.frame.dense.nodes + image.frame.sparse.nodes == 0 {
        return KeyEnd::NoNodes;
    }
    let mut node = NodeNum(0);
    for depth in 0..n {
        let found = find(image, node, usize::from(key[depth]));
        match found.kind {
            BranchKind::Absent => {
                return KeyEnd::NoBranch;
            }
            BranchKind::Leaf => {
                return KeyEnd::Leaf {
                    node,
                    at: found.at,
                    depth: depth + 1,
                };
            }
            BranchKind::Child => {
                node = child(image, node, found.at);
            }
        }
    }
    KeyEnd::Node(node)
}
