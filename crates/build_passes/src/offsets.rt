// Level offsets and totals from the counters of the levels.
ghost use Rattle.std.specs.Prelude.{◌≡◌, ◌+◌, ◌≤◌, ◌<◌, length};
ghost use Rattle.build_laws.specs.Cursors.{sums};
ghost use Rattle.build_laws.specs.Counters.{CursorsAt};
ghost use Rattle.build_laws.specs.Limits.{counters, counter_max};

use build_keys::{COUNTERS, Counters};

// The counter of level d if d is lo or above, else 0.
#[tactic(auto, using(crate::specs::CounterSums::sums_in, crate::specs::CounterSums::sums_out))]
fn count_from(cnt: &Counters, lo: usize, d: usize) -> u32
    requires { d < counters }
    ensures { sums cnt.now lo (d + 1) ≡ sums cnt.now lo d + result }
{
    if lo <= d { cnt[d] } else { 0 }
}

// Each level's cursor becomes the sum of the counters of the levels from lo on that are before it.
pub fn set_offsets(cur: &mut Counters, cnt: &Counters, lo: usize)
    requires { sums cnt.now lo counters ≤ counter_max }
    ensures { CursorsAt cnt.now lo cur.new × (length cur.new ≡ counters) }
{
    let mut sum = 0u32;
    for d in 0..COUNTERS {
        cur[d] = sum;
        sum += count_from(cnt, lo, d);
    }
}

// The sum of the counters of the levels from lo to below hi.
pub fn total(cnt: &Counters, lo: usize, hi: usize) -> usize
    requires { (hi ≤ counters) × (sums cnt.now lo counters ≤ counter_max) }
    ensures { result ≡ sums cnt.now lo hi }
{
    let mut sum = 0u32;
    for d in lo..hi {
        sum += cnt[d];
    }
    sum as usize
}
