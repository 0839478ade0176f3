// The calls for programs in other languages over an image that `range_filter_check` has accepted, which they require and do not check again. They make a static library of their own, apart from the public calls, which ask for nothing.
// But for the walk, the answer of each is one number: its quotient by 2^32 is the number of a refusal, 0 for none, and its rest the number of the reply, 0 for a refusal.

#![tactic(auto)]

ghost use Rattle.std.specs.Prelude.{◌≡◌};
ghost use Rattle.spec.specs.Check.{verdict};
ghost use Rattle.spec.specs.Questions.{QP, QS, QB, QR, QC};
ghost use Rattle.spec.specs.WalkRecords.{walk_records};
ghost use Rattle.spec.specs.OneQuestion.{ask_one, reply_number, reply_rule, key_written};
ghost use Rattle.image.specs.Codes.{Coded};
ghost use Rattle.range_filter_accepted.specs.CodedNumber.{CodedNumber};

use accepted::FOUND_BYTES;
use accepted::records::write_accepted;
use image::codes::{by_number, code};

// The number in the reply to a point over an accepted image: 1 or 0.
#[unsafe(no_mangle)]
pub extern "C" fn range_filter_accepted_point(image: &[u8], key: &[u8]) -> u64
    requires { verdict image.now ≡ 0 }
    ensures { CodedNumber result (reply_number (ask_one image.now (QP key.now))) }
{
    code(by_number(accepted::point(image, key)))
}

// The rule behind the reply to a point over an accepted image: 1 to 6.
#[unsafe(no_mangle)]
pub extern "C" fn range_filter_accepted_rule(image: &[u8], key: &[u8]) -> u64
    requires { verdict image.now ≡ 0 }
    ensures { CodedNumber result (reply_rule (ask_one image.now (QP key.now))) }
{
    code(by_number(accepted::rule(image, key)))
}

// The number in the reply to a range over an accepted image: 1 or 0.
#[unsafe(no_mangle)]
pub extern "C" fn range_filter_accepted_range(image: &[u8], lower: &[u8], upper: &[u8]) -> u64
    requires { verdict image.now ≡ 0 }
    ensures { CodedNumber result (reply_number (ask_one image.now (QR lower.now upper.now))) }
{
    code(by_number(accepted::range(image, lower, upper)))
}

// The number in the reply to a begins-with question over an accepted image: 1 or 0.
#[unsafe(no_mangle)]
pub extern "C" fn range_filter_accepted_begins_with(image: &[u8], stem: &[u8]) -> u64
    requires { verdict image.now ≡ 0 }
    ensures { CodedNumber result (reply_number (ask_one image.now (QB stem.now))) }
{
    code(by_number(accepted::begins_with(image, stem)))
}

// The number in the reply to a count over an accepted image.
#[unsafe(no_mangle)]
pub extern "C" fn range_filter_accepted_count(image: &[u8], lower: &[u8], upper: &[u8]) -> u64
    requires { verdict image.now ≡ 0 }
    ensures { CodedNumber result (reply_number (ask_one image.now (QC lower.now upper.now))) }
{
    code(by_number(accepted::count(image, lower, upper)))
}

// The number in the reply to a seek over an accepted image: the leaf's place, or FFFFFFFF for none. A byte with the length of the reply's key goes to the front of `found`, and the key behind it.
#[unsafe(no_mangle)]
pub extern "C" fn range_filter_accepted_seek(
    image: &[u8],
    start: &[u8],
    found: &mut [u8; FOUND_BYTES],
) -> u64
    requires { verdict image.now ≡ 0 }
    ensures { CodedNumber result (reply_number (ask_one image.now (QS start.now))) × (found.new ≡ key_written (ask_one image.now (QS start.now)) found.old) }
{
    code(by_number(accepted::seek(image, start, found)))
}

// Walks an accepted image as `range_filter_walk` does, and writes what it writes.
#[unsafe(no_mangle)]
pub extern "C" fn range_filter_accepted_walk(image: &[u8], place: u64, records: &mut [u8]) -> u64
    requires { verdict image.now ≡ 0 }
    ensures { Coded result records.new (walk_records image.now place records.old) }
{
    code(by_number(write_accepted(image, place as usize, records)))
}
