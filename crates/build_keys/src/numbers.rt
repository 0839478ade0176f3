// The numbers of a key: the level where it leaves the key before it, how long its cut key is, and the level of its leaf.
ghost use Rattle.std.specs.Prelude.{◌≡◌, ◌≤◌, ◌<◌};
ghost use Rattle.build_laws.specs.LevelEntries.{pred};
ghost use Rattle.build_laws.specs.NeighbourLeaves.{cut_length};
ghost use Rattle.build_laws.specs.PassEmissions.{KeyNumbers};
ghost use Rattle.build_keys.specs.CountPass.{leaf_level_of};

use build_laws::Key;

// The level where a key leaves the key before it.
pub fn split_level(k: Key) -> usize
    ensures { result ≡ pred k.first }
{
    k.first.saturating_sub(1)
}

// The level of a key's leaf: behind its last byte if it is an exact leaf, and else where it leaves both its neighbours.
pub fn leaf_level(k: Key) -> usize
    requires { KeyNumbers (pred k.first) k.next k.len }
    ensures { (result ≡ leaf_level_of k) × (result < 64) }
{
    if k.next == k.len {
        k.len
    } else {
        split_level(k).max(k.next)
    }
}

// The length of a key's cut key: the key, if it is an exact leaf, and else one byte behind where it leaves both its neighbours.
pub fn cut_length(k: Key) -> usize
    requires { KeyNumbers (pred k.first) k.next k.len }
    ensures { (result ≡ cut_length (pred k.first) k.next k.len) × (result ≤ k.len) }
{
    let leaf = leaf_level(k);
    if k.next == k.len { leaf } else { leaf + 1 }
}
