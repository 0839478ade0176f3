// The path from the root of an accepted image to the leaf at a place.
ghost use Rattle.std.specs.Prelude.{◌<◌};
ghost use Rattle.walk_cursor.specs.Located.{Leads};

use super::branch::take_branch;
use image::AcceptedImage;
use nav_branches::LeafStop;
use nav_branches::paths::{PathEnd, root_path};
use nav_nodes::BranchKind;
use nav_nodes::behind::{child, slot};
use nav_nodes::nodes::is_exact;

// The path to the leaf at a place. On each level the branch is taken that has the leaf behind it, and the leaves before that branch are passed.
pub fn descend_to(image: &AcceptedImage, place: usize) -> PathEnd
    requires { place < image.now.frame.leaves }
    ensures { Leads image.now.bytes.now image.now.frame place result }
{
    let mut p = root_path();
    let mut d = 0usize;
    let mut skip = place;
    loop {
        let m = p.nodes[d];
        let taken = take_branch(image, m, d, skip);
        let b = taken.low;
        skip -= taken.before;
        p.labels[d] = b.label as u8;
        d += 1;
        let BranchKind::Child = b.kind else {
            return PathEnd {
                path: p,
                stop: LeafStop::Open(slot(image, m, b.at)),
                depth: d,
            };
        };
        let c = child(image, m, b.at);
        p.nodes[d] = c;
        if is_exact(image, c) {
            if skip == 0 {
                return PathEnd {
                    path: p,
                    stop: LeafStop::Exact,
                    depth: d,
                };
            }
            skip -= 1;
        }
    }
}
