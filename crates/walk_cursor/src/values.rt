// A leaf by value with zeros behind its cut key and above its suffix bits, so that all of it is settled by the leaf.
ghost use Rattle.std.specs.Prelude.{◌≡◌, ◌≤◌};
ghost use Rattle.spec.specs.Bytes.{low_first, low_bits};
ghost use Rattle.image.specs.Value.{leaf_of, Sized, value_of};

use image::Leaf;

// The number of the low width bits.
fn suffix_number(suffix: usize, width: usize) -> usize
    requires { width ≤ 32 }
    ensures { result ≡ low_first (low_bits width suffix) }
{
    suffix % (1usize << width)
}

// The leaf, with zeros for what stands behind its cut key and above its suffix bits.
pub fn padded(l: Leaf) -> Leaf
    requires { Sized l }
    ensures { result ≡ value_of (leaf_of l) }
{
    let mut cut = [0u8; 64];
    cut[..l.len].copy_from_slice(&l.cut[..l.len]);
    Leaf {
        cut,
        suffix: suffix_number(l.suffix, l.width),
        ..l
    }
}
