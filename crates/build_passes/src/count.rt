// Entries, nodes and leaves of each level: one pass over the list counts where keys start and where their leaves are, and one over the levels sums.
ghost use Rattle.std.specs.Prelude.{◌≡◌, ◌+◌, ◌≤◌, length, get_or};
ghost use Rattle.spec.specs.Keys.{keys_of};
ghost use Rattle.build_laws.specs.LevelEntries.{pred};
ghost use Rattle.build_laws.specs.PassEmissions.{KeyNumbers};
ghost use Rattle.build_laws.specs.KeyRecords.{AcceptedList};
ghost use Rattle.build_keys.specs.CounterRoom.{CountersRoom};
ghost use Rattle.build_keys.specs.CountPass.{leaf_level_of, raised, level_counts, no_counts, list_counts};
ghost use Rattle.build_passes.specs.LevelSums.{Balanced, Summable, Summed};
ghost use Rattle.build_laws.specs.Limits.{counters, counter_max};

use build_keys::LevelCounts;
use build_keys::numbers::{leaf_level, split_level};
use build_laws::Key;
use build_list::read::read_key;
use image::MAX_LEVELS;

// The level where a key leaves the key before it is counted among the entries, and the level of its leaf among the leaves.
fn count_key(counts: &mut LevelCounts, k: Key)
    requires key_numbers { KeyNumbers (pred k.first) k.next k.len }
    requires first_bound { (get_or counts.old.entries (pred k.first) 0 + 1 ≤ counter_max) × (get_or counts.old.leaves (leaf_level_of k) 0 + 1 ≤ counter_max) }
    ensures { counts.new ≡ level_counts (raised counts.old.entries (pred k.first)) counts.old.nodes (raised counts.old.leaves (leaf_level_of k)) }
{
    counts.entries[split_level(k)] += 1;
    counts.leaves[leaf_level(k)] += 1;
}

// Where the keys of a list start, in `entries`, and where their leaves are, counted from zero.
fn count_keys(counts: &mut LevelCounts, s: &[u8])
    requires { AcceptedList s.now × CountersRoom counter_max (keys_of s.now) × (counts.old ≡ no_counts) }
    ensures { (counts.new.leaves ≡ (list_counts (keys_of s.now)).leaves) × Balanced counts.new.entries (list_counts (keys_of s.now)) × Summable counts.new.entries counts.new.leaves × (length counts.new.nodes ≡ counters) }
{
    let mut at = 0usize;
    let mut first = 0usize;
    while at < s.len() {
        let k = read_key(s, at, first);
        count_key(counts, k);
        first = k.next + 1;
        at = k.at + k.len;
    }
}

// Each level's entries and nodes from where keys start, which `entries` has, and where their leaves are: an entry that is no leaf has a node below it, and an entry is the first of its node or where a key starts.
fn sum_levels(counts: &mut LevelCounts)
    requires { Summable counts.old.entries counts.old.leaves × (length counts.old.nodes ≡ counters) }
    ensures { Summed counts.old.entries counts.old.leaves counts.new.entries counts.new.nodes × (counts.new.leaves ≡ counts.old.leaves) }
{
    counts.nodes[0] = counts.entries[0].min(1);
    for d in 0..MAX_LEVELS {
        let below = counts.entries[d] - counts.leaves[d];
        counts.nodes[d + 1] = below;
        counts.entries[d + 1] += below;
    }
}

// The entries, nodes and leaves of each level, counted from zero.
pub fn count_levels(counts: &mut LevelCounts, s: &[u8])
    requires { AcceptedList s.now × CountersRoom counter_max (keys_of s.now) × (counts.old ≡ no_counts) }
    ensures { counts.new ≡ list_counts (keys_of s.now) }
{
    count_keys(counts, s);
    sum_levels(counts);
}
