// The plan of an image, its length, and the image: its header, and its records behind it.
ghost use Rattle.std.specs.Prelude.{◌≡◌, ◌++◌, ◌+◌, ◌≤◌, ◌<◌, length, drop};
ghost use Rattle.spec.specs.Keys.{keys_of};
ghost use Rattle.spec.specs.Build.{write_stated};
ghost use Rattle.image.specs.Header.{asked};
ghost use Rattle.image.specs.Outcomes.{outcome};
ghost use Rattle.build_keys.specs.CountPass.{no_counts, list_counts};
ghost use Rattle.build_records.specs.Plan.{Planned, plan_settings, start_at, plan_image, plan_levels};
ghost use Rattle.build.specs.Image.{image_of};

use super::ready::ReadyList;
use build_keys::{COUNTERS, Counters, LevelCounts};
use build_passes::count::count_levels;
use build_passes::offsets::total;
use build_records::Plan;
use build_records::levels::{levels_size, write_levels};
use build_records::records::write_records;
use image::header_bytes::write_header;
use image::refusals::Refusal;
use image::table::{RECORDS, record_starts};
use image::{Dense, Header, MAX_LEVELS, Sparse};

// Nothing counted yet.
const NO_COUNTS: LevelCounts = LevelCounts {
    entries: [0; COUNTERS],
    nodes: [0; COUNTERS],
    leaves: [0; COUNTERS],
};

// The plan of an accepted list: each level's entries, nodes and leaves are counted from zero in one pass, and give the header's counts and the records' starts.
fn lay_out(counts: &mut LevelCounts, list: &ReadyList) -> Plan
    requires { counts.old ≡ no_counts }
    ensures { Planned list.now.bytes.now result × (plan_settings result ≡ asked list.now.settings) × (counts.new ≡ list_counts (keys_of list.now.bytes.now)) }
{
    count_levels(counts, list.bytes);
    let st = list.settings;
    let h = Header {
        version: st.version,
        real_width: st.real_width,
        hash_width: st.hash_width,
        leaves: list.count,
        dense: Dense {
            levels: st.dense_levels,
            nodes: total(&counts.nodes, 0, st.dense_levels),
        },
        sparse: Sparse {
            nodes: total(&counts.nodes, st.dense_levels, MAX_LEVELS),
            entries: total(&counts.entries, st.dense_levels, MAX_LEVELS),
        },
    };
    Plan {
        header: h,
        starts: record_starts(h),
    }
}

// Where the image of a plan ends: behind the twelve records, and those of its version behind them.
fn image_end(plan: Plan, nodes: &Counters) -> usize
    requires { start_at plan 12 + length (plan_levels plan nodes.now) < 18446744073709551616 }
    ensures { result ≡ start_at plan 12 + length (plan_levels plan nodes.now) }
{
    plan.starts[RECORDS] + levels_size(plan.header.version, nodes)
}

// The length of the image of an accepted list: where it ends.
pub fn measure_image(list: &ReadyList) -> usize
    ensures { result ≡ length (image_of list.now.bytes.now (asked list.now.settings)) }
{
    let mut counts = NO_COUNTS;
    let plan = lay_out(&mut counts, list);
    image_end(plan, &counts.nodes)
}

// The image of a plan goes to the front of out, and all else stays: its header, the twelve records, and those of its version behind them. The counters are the list's.
fn write_image(out: &mut [u8], list: &[u8], plan: Plan, counts: &LevelCounts)
    requires { Planned list.now plan × (length (plan_image list.now plan) ≤ length out.old) × (counts.now ≡ list_counts (keys_of list.now)) }
    ensures { out.new ≡ plan_image list.now plan ++ drop (length (plan_image list.now plan)) out.old }
{
    write_header(out, plan.header);
    write_records(out, list, plan, counts);
    write_levels(
        out,
        plan.starts[RECORDS],
        plan.header.version,
        &counts.nodes,
    );
}

// The image of an accepted list goes to the front of out; or the answer is 8, the stated length is not the image's, or 7, the image is longer than the output.
pub fn build_image(list: &ReadyList, stated: u64, out: &mut [u8]) -> Result<usize, Refusal>
    ensures { outcome result out.new ≡ write_stated stated (image_of list.now.bytes.now (asked list.now.settings)) out.old }
{
    let mut counts = NO_COUNTS;
    let plan = lay_out(&mut counts, list);
    let end = image_end(plan, &counts.nodes);
    if stated != end as u64 {
        return Err(Refusal::StatedLengthWrong);
    }
    if out.len() < end {
        return Err(Refusal::OutputTooShort);
    }
    write_image(out, list.bytes, plan, &counts);
    Ok(end)
}
