// The records of an image by the table, one behind the other.
ghost use Rattle.std.specs.Prelude.{◌≡◌, ◌≤◌, length};
ghost use Rattle.spec.specs.Keys.{keys_of};
ghost use Rattle.spec.specs.Image.{rows, write_records};
ghost use Rattle.bits.specs.Bits.{overlaid};
ghost use Rattle.build_keys.specs.CountPass.{list_counts};
ghost use Rattle.build_records.specs.RecordsWritten.{record_bytes};
ghost use Rattle.build_records.specs.Plan.{Planned, plan_bodies, counters_at, body_at, start_at, Writing};

use super::bodies::fill_body;
use super::{Plan, Source};
use build_keys::{Counters, LevelCounts};
use image::header_bytes::begin_record;
use image::table::{RECORDS, body_size, mark};

// Record i goes to its part of out: its mark, the length of its body, and its body.
fn write_record(out: &mut [u8], list: &[u8], plan: Plan, cnt: &Counters, i: usize)
    requires { Writing list.now plan i out.old × (cnt.now ≡ counters_at list.now i) }
    ensures { out.new ≡ overlaid out.old (start_at plan i) (record_bytes i (body_at list.now plan i)) }
{
    begin_record(out, plan.starts[i], &mark(i), body_size(plan.header, i));
    fill_body(out, list, plan, cnt, i);
}

// All records go to out behind the header, one behind the other. The counters are the list's.
pub fn write_records(out: &mut [u8], list: &[u8], plan: Plan, counts: &LevelCounts)
    requires { Planned list.now plan × (start_at plan 12 ≤ length out.old) × (counts.now ≡ list_counts (keys_of list.now)) }
    ensures { out.new ≡ overlaid out.old 22 (write_records rows (plan_bodies list.now plan)) }
{
    for i in 0..RECORDS {
        write_record(out, list, plan, Source::of_record(i).counters(counts), i);
    }
}
