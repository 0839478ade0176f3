// The count question over an accepted image, by both bounds.

#![tactic(auto)]

ghost use Rattle.std.specs.Prelude.{◌≡◌, ◌≤◌, length};
ghost use Rattle.spec.specs.Questions.{counted};
ghost use Rattle.nav_nodes.specs.Accepted.{real_leaves};
ghost use Rattle.query_sums.specs.Bounds.{Parted};

use image::AcceptedImage;
use keys::compare::shared;
use nav_nodes::behind::slot;
use query_descent::KeyEnd;
use query_descent::follow::follow;
use query_descent::suffix::open_between;
use query_sums::bounds::{bound_from, passed_at, reached_at};
use query_sums::levels::{LevelSum, sums_apart};

// The count from the node at which the ways of both keys part: each bound has its own sum from there.
fn count_apart(image: &AcceptedImage, lo: &[u8], hi: &[u8], fork: LevelSum) -> usize
    requires { Parted image.now.bytes.now image.now.frame lo.now hi.now fork.node.0 fork.depth × (fork.sum ≡ 0) }
    ensures { result ≡ counted (real_leaves image.now.bytes.now image.now.frame) lo.now hi.now }
{
    let lower = bound_from(image, lo, fork);
    let upper = bound_from(image, hi, fork);
    let sums = sums_apart(image, lower.level, upper.level);
    let below = sums.lower + passed_at(image, lo, lower);
    let upto = sums.upper + reached_at(image, hi, upper);
    upto.saturating_sub(below)
}

// How many leaves have a possible key from lo to hi, both included. No leaf on the way that both keys share lies between the two bounds, so none is counted there; an open leaf to which both lead is the only one left.
pub fn count(image: &AcceptedImage, lo: &[u8], hi: &[u8]) -> usize
    requires { (length lo.now ≤ 64) × (length hi.now ≤ 64) }
    ensures { result ≡ counted (real_leaves image.now.bytes.now image.now.frame) lo.now hi.now }
{
    let n = shared(lo, hi);
    match follow(image, lo, n) {
        KeyEnd::NoNodes | KeyEnd::NoBranch => 0,
        KeyEnd::Node(node) => {
            let fork = LevelSum {
                node,
                depth: n,
                sum: 0,
            };
            count_apart(image, lo, hi, fork)
        }
        KeyEnd::Leaf { node, at, depth } => {
            let leaf = slot(image, node, at);
            usize::from(open_between(image, lo, hi, leaf, depth))
        }
    }
}
