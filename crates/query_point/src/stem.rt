// The begins-with question over an accepted image.
ghost use Rattle.std.specs.Prelude.{◌≡◌, ◌≤◌, length};
ghost use Rattle.spec.specs.Bytes.{bit};
ghost use Rattle.spec.specs.Questions.{begins_with};
ghost use Rattle.nav_nodes.specs.Accepted.{real_leaves};

use super::stem_suffix::real_agrees;
use image::AcceptedImage;
use nav_nodes::behind::slot;
use query_descent::KeyEnd;
use query_descent::follow::follow;

// Whether some leaf has a possible key that begins with the stem: a stem that ends at a node begins all leaves below it, and no leaf need be looked at.
pub fn begins_with(image: &AcceptedImage, stem: &[u8]) -> bool
    requires { length stem.now ≤ 64 }
    ensures { begins_with (real_leaves image.now.bytes.now image.now.frame) stem.now ≡ bit result }
{
    match follow(image, stem, stem.len()) {
        KeyEnd::NoNodes | KeyEnd::NoBranch => false,
        KeyEnd::Node(_) => true,
        KeyEnd::Leaf { node, at, depth } => real_agrees(image, slot(image, node, at), stem, depth),
    }
}
