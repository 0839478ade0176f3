// A body from all keys: one pass over the list, with one cursor a level.
ghost use Rattle.std.specs.Prelude.{◌≡◌, ◌≤◌, length};
ghost use Rattle.spec.specs.Keys.{keys_of};
ghost use Rattle.build_laws.specs.BytePass.{byte_state};
ghost use Rattle.build_laws.specs.KeyRecords.{AcceptedList};
ghost use Rattle.build_laws.specs.Passes.{entries_pass, pass_keys, PassRoom};
ghost use Rattle.build_laws.specs.declared.Kind.TheVariants.{DP};

use build_keys::dense::{DenseHasChild, DenseIsPrefixKey, DenseLabels};
use build_keys::entries::EntryWriter;
use build_keys::slots::SlotWriter;
use build_keys::sparse::{SparseHasChild, SparseLabels, SparseLouds};
use build_keys::{Counters, KeyWriter};
use build_laws::{Body, Kind, LevelRange, Pass};
use build_list::read::{all_long, read_key};

// What a writer makes of all keys of the list goes to the body, from cursors at the offsets of the levels. Each writer has its own instance of the loop.
fn make_pass<W: KeyWriter>(out: &mut [u8], cur: &mut Counters, s: &[u8], writer: &W)
    requires accepted_list { AcceptedList s.now }
    requires pass_room { PassRoom (W.pass writer.now) 0 (keys_of s.now) (length out.old) cur.old }
    ensures { byte_state out.new cur.new ≡ pass_keys (W.pass writer.now) 0 (keys_of s.now) (byte_state out.old cur.old) }
{
    let mut at = 0usize;
    let mut first = 0usize;
    while at < s.len() {
        let k = read_key(s, at, first);
        writer.write(out, cur, s, k);
        first = k.next + 1;
        at = k.at + k.len;
    }
}

// D-IsPrefixKey of all keys' entries on the levels goes to the body. Where every key reaches over the levels none is an exact leaf there: the body stays as it is, and no pass is made.
#[tactic(auto, using(build_list::specs::LongKeys::long_unset))]
fn fill_exact(out: &mut [u8], cur: &mut Counters, s: &[u8], levels: LevelRange)
    requires accepted_list { AcceptedList s.now }
    requires pass_room { PassRoom (entries_pass DP levels) 0 (keys_of s.now) (length out.old) cur.old }
    ensures { out.new ≡ (pass_keys (entries_pass DP levels) 0 (keys_of s.now) (byte_state out.old cur.old)).bytes }
{
    if !all_long(s, levels.hi) {
        let body = DenseIsPrefixKey;
        make_pass(out, cur, s, &EntryWriter { body, levels });
    }
}

// What a pass has to write of all keys of the list goes to the body, from cursors at the offsets of the levels.
pub fn write_keys(out: &mut [u8], cur: &mut Counters, s: &[u8], pass: Pass)
    requires accepted_list { AcceptedList s.now × (pass.slot.hash_width ≤ 16) × (pass.slot.real_width ≤ 16) }
    requires pass_room { PassRoom pass 0 (keys_of s.now) (length out.old) cur.old }
    ensures { out.new ≡ (pass_keys pass 0 (keys_of s.now) (byte_state out.old cur.old)).bytes }
{
    let levels = pass.levels;
    match pass.body {
        Body::Entries(Kind::DL) => {
            let body = DenseLabels;
            make_pass(out, cur, s, &EntryWriter { body, levels })
        }
        Body::Entries(Kind::DC) => {
            let body = DenseHasChild;
            make_pass(out, cur, s, &EntryWriter { body, levels })
        }
        Body::Entries(Kind::DP) => fill_exact(out, cur, s, levels),
        Body::Entries(Kind::SL) => {
            let body = SparseLabels;
            make_pass(out, cur, s, &EntryWriter { body, levels })
        }
        Body::Entries(Kind::SC) => make_pass(out, cur, s, &SparseHasChild { levels }),
        Body::Entries(Kind::SB) => make_pass(out, cur, s, &SparseLouds { levels }),
        Body::Slots => make_pass(out, cur, s, &SlotWriter { slot: pass.slot }),
    }
}
