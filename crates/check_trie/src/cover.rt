// One bitmap within another, word by word.
ghost use Rattle.std.specs.Prelude.{◌≡◌, ◌*◌, ◌≤◌, length};
ghost use Rattle.spec.specs.Bytes.{unpack};
ghost use Rattle.spec.specs.Trie.{covered};

use bits::numbers::read64;

// Whether every bit that is set in the w words of xs is set in ys.
pub fn covered(xs: &[u8], ys: &[u8], w: usize) -> bool
    requires { (length xs.now ≡ 8 * w) × (8 * w ≤ length ys.now) }
    ensures { result ≡ covered (unpack xs.now) (unpack ys.now) }
{
    for q in 0..w {
        let x = read64(xs, q * 8);
        let y = read64(ys, q * 8);
        if x & y != x {
            return false;
        }
    }
    true
}
