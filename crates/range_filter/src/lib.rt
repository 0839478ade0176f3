// The public calls for programs in other languages. They ask for nothing.

#![tactic(auto)]

ghost use Rattle.std.specs.Prelude.{◌≡◌};
ghost use Rattle.spec.specs.Ask.{ask};
ghost use Rattle.spec.specs.Build.{settings_from, image_length, build};
ghost use Rattle.spec.specs.Check.{check};
ghost use Rattle.spec.specs.Fnv.{hash};
ghost use Rattle.spec.specs.WalkRecords.{walk_records};
ghost use Rattle.image.specs.Codes.{Coded};
ghost use Rattle.range_filter.specs.Filter.{CodedLength, number_of};

use ask::ask;
use build::{build, image_length};
use check_image::check;
use fnv::hash;
use image::codes::{by_number, code, settings_of};
use walk_records::write_records;

// Gives the exact length of the image of a key list with the settings of a number, and writes nothing. The answer is one number: its quotient by 2^32 is the number of a refusal, 0 for a length, and its rest the bytes, 0 for a refusal.
#[unsafe(no_mangle)]
pub extern "C" fn range_filter_image_length(list: &[u8], settings: u64) -> u64
    ensures { CodedLength result (image_length list.now (settings_from settings)) }
{
    code(by_number(image_length(list, settings_of(settings))))
}

// Builds the image of a key list with the settings of a number, whose length is stated, into the output. The answer is one number: its quotient by 2^32 is the number of a refusal, 0 for success, and its rest the bytes written, 0 for a refusal.
#[unsafe(no_mangle)]
pub extern "C" fn range_filter_build(list: &[u8], settings: u64, stated: u64, out: &mut [u8]) -> u64
    ensures { Coded result out.new (build list.now (settings_from settings) stated out.old) }
{
    code(by_number(build(list, settings_of(settings), stated, out)))
}

// Gives the hash of a key, of which a slot has the low bits: the whole 64-bit FNV-1a hash, of any number of bytes.
#[unsafe(no_mangle)]
pub extern "C" fn range_filter_hash(key: &[u8]) -> u64
    ensures { result ≡ hash key.now }
{
    hash(key)
}

// Judges an image. The answer is 0 for an accepted one, else the number of the refusal.
#[unsafe(no_mangle)]
pub extern "C" fn range_filter_check(image: &[u8]) -> u32
    ensures { result ≡ number_of (check image.now) }
{
    match check(image) {
        Ok(()) => 0,
        Err(refusal) => refusal.number(),
    }
}

// Replies to a question file over an image into the reply buffer. The answer is one number, as build's.
#[unsafe(no_mangle)]
pub extern "C" fn range_filter_ask(image: &[u8], questions: &[u8], replies: &mut [u8]) -> u64
    ensures { Coded result replies.new (ask image.now questions.now replies.old) }
{
    code(by_number(ask(image, questions, replies)))
}

// Walks an image from a place on: a leaf's number in key order, or the leaf count for done. Of as many leaves as the buffer holds whole, it writes the records, 70 bytes each, one behind the other:
// the kind (1 exact, 2 open), the cut key's length, 64 bytes with the cut key and zeros behind it, and the suffix as a number of four bytes, the low one first.
// The answer is one number, as build's.
#[unsafe(no_mangle)]
pub extern "C" fn range_filter_walk(image: &[u8], place: u64, records: &mut [u8]) -> u64
    ensures { Coded result records.new (walk_records image.now place records.old) }
{
    code(by_number(write_records(image, place as usize, records)))
}
