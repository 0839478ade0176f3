// The range question over an accepted image.
ghost use Rattle.std.specs.Prelude.{◌≡◌, ◌≤◌, length};
ghost use Rattle.spec.specs.Bytes.{bit};
ghost use Rattle.spec.specs.Questions.{range};
ghost use Rattle.nav_nodes.specs.Accepted.{real_leaves};

use super::together::at_node;
use image::AcceptedImage;
use keys::compare::shared;
use nav_nodes::behind::slot;
use query_descent::KeyEnd;
use query_descent::follow::follow;
use query_descent::suffix::open_between;

// Whether some leaf has a possible key from lo to hi, both included, by where the bytes that the bounds share lead from the root.
pub fn range(image: &AcceptedImage, lo: &[u8], hi: &[u8]) -> bool
    requires { (length lo.now ≤ 64) × (length hi.now ≤ 64) }
    ensures { range (real_leaves image.now.bytes.now image.now.frame) lo.now hi.now ≡ bit result }
{
    let n = shared(lo, hi);
    match follow(image, lo, n) {
        KeyEnd::NoNodes | KeyEnd::NoBranch => false,
        KeyEnd::Node(node) => at_node(image, lo, hi, node, n),
        KeyEnd::Leaf { node, at, depth } => open_between(
            image,
            lo,
            hi,
            slot(image, node, at),
            depth,
        ),
    }
}
