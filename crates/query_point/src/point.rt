// The point question over an accepted image: the rule behind its reply, and what the rule says.
ghost use Rattle.std.specs.Prelude.{◌≡◌, cond, ◌<◌, ◌≤◌, length, drop};
ghost use Rattle.spec.specs.Bytes.{bit};
ghost use Rattle.spec.specs.Nodes.{is_exact, read_leaves};
ghost use Rattle.spec.specs.Rules.{key_ended, at_exact_leaf, suffix_equal, suffix_other, rule_number, rule, rule_says};
ghost use Rattle.nav_nodes.specs.Slots.{node_at, slot_of};
ghost use Rattle.nav_nodes.specs.Accepted.{nodes};
ghost use Rattle.nav_nodes.specs.Positions.{slot_at};
ghost use Rattle.nav_nodes.specs.FoundBranch.{IsNode, IsPosition};
ghost use Rattle.query_point.specs.Rules.{rule_of, slot_has};

use super::Rule;
use image::{AcceptedImage, BitPos, NodeNum};
use nav_nodes::behind::slot;
use nav_nodes::nodes::is_exact;
use query_descent::KeyEnd;
use query_descent::follow::follow;
use query_descent::suffix::{hash_equals, real_equals};

// Whether a key, whose first d bytes lead to the open leaf behind a branch, has the leaf's suffix: its real bits and its hash bits. No slot is looked up where slots have no bits, and no key is hashed whose real bits differ.
#[tactic(auto, using(crate::proofs::NoSuffixBits::no_suffix_bits))]
fn leaf_has(image: &AcceptedImage, m: NodeNum, at: BitPos, key: &[u8], d: usize) -> bool
    requires { IsPosition image.now.bytes.now image.now.frame m.0 at.0 × (slot_at image.now.bytes.now image.now.frame m.0 at.0 < image.now.frame.leaves) × (d ≤ length key.now) }
    ensures { result ≡ slot_has image.now.frame.hash_width key.now (slot_of image.now.frame.width (nodes image.now.bytes.now image.now.frame) (slot_at image.now.bytes.now image.now.frame m.0 at.0)) (drop d key.now) }
{
    if image.frame.width == 0 {
        return true;
    }
    let leaf = slot(image, m, at);
    real_equals(image, leaf, key, d) && hash_equals(image, leaf, key)
}

// The rule of a key that ends at a node: the node is no exact leaf, or it is one.
fn node_rule(image: &AcceptedImage, m: NodeNum) -> Rule
    requires { IsNode image.now.bytes.now image.now.frame m.0 }
    ensures { rule_of result ≡ cond (is_exact (node_at (nodes image.now.bytes.now image.now.frame) m.0)) at_exact_leaf key_ended }
{
    if is_exact(image, m) {
        Rule::ExactLeaf
    } else {
        Rule::KeyEnded
    }
}

// The rule of a key whose first d bytes lead to the open leaf behind a branch: the key has the leaf's suffix, or another.
fn leaf_rule(image: &AcceptedImage, m: NodeNum, at: BitPos, key: &[u8], d: usize) -> Rule
    requires { IsPosition image.now.bytes.now image.now.frame m.0 at.0 × (slot_at image.now.bytes.now image.now.frame m.0 at.0 < image.now.frame.leaves) × (d ≤ length key.now) }
    ensures { rule_of result ≡ cond (slot_has image.now.frame.hash_width key.now (slot_of image.now.frame.width (nodes image.now.bytes.now image.now.frame) (slot_at image.now.bytes.now image.now.frame m.0 at.0)) (drop d key.now)) suffix_equal suffix_other }
{
    if leaf_has(image, m, at, key, d) {
        Rule::SuffixEqual
    } else {
        Rule::SuffixOther
    }
}

// The rule behind the point question's reply to a key, by where the key leads from the root: one label search a level, and one look at the node or the leaf there.
pub fn descend(image: &AcceptedImage, key: &[u8]) -> Rule
    requires { length key.now ≤ 64 }
    ensures { rule_of result ≡ rule image.now.frame.hash_width (read_leaves image.now.bytes.now) key.now }
{
    match follow(image, key, key.len()) {
        KeyEnd::NoNodes => Rule::NoNodes,
        KeyEnd::NoBranch => Rule::BranchMissing,
        KeyEnd::Node(node) => node_rule(image, node),
        KeyEnd::Leaf { node, at, depth } => leaf_rule(image, node, at, key, depth),
    }
}

impl Rule {
    // The number of a rule, the key byte of a point's reply.
    pub fn number(self) -> u8
        ensures { result ≡ rule_number (rule_of self) }
    {
        self as u8
    }

    // Whether the rule says that some leaf has the key among its possible keys: the number of a point's reply, as a truth value.
    pub fn says(self) -> bool
        ensures { rule_says (rule_of self) ≡ bit result }
    {
        matches!(self, Rule::ExactLeaf | Rule::SuffixEqual)
    }
}
