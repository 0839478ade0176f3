// Leaves as records of bytes, for programs in other languages: the kind (1 exact, 2 open), the cut key's length, 64 bytes with the cut key and zeros behind it,
// and the suffix as a number of four bytes, the low one first, whose lowest bit is the suffix's first: hash bits stand below real bits.

#![tactic(auto)]

ghost use Rattle.std.specs.Prelude.{◌≡◌, Ok};
ghost use Rattle.spec.specs.WalkRecords.{kind_byte, walk_records};
ghost use Rattle.bits.specs.Bits.{overlaid};
ghost use Rattle.image.specs.Outcomes.{outcome};
ghost use Rattle.walk_cursor.specs.LeafValues.{value_record};
ghost use Rattle.walk_states.specs.Walks.{Walks};
ghost use Rattle.walk_states.specs.Records.{Room};

use bits::copy::write_bytes;
use bits::numbers::write32;
use image::Leaf;
use image::refusals::Refusal;
use walk::walker::{Walker, open};
use walk_cursor::values::padded;
use walk_cursor::{advance, leaf_of};

// The bytes of a record: kind, length, cut key and suffix.
pub const RECORD_SIZE: usize = 70;

// Where the cut key and the suffix stand in a record.
const CUT_AT: usize = 2;

const SUFFIX_AT: usize = 66;

// The byte of a leaf's kind.
fn kind_byte(exact: bool) -> u8
    ensures { result ≡ kind_byte exact }
{
    if exact {
        return 1;
    }
    2
}

// A leaf's record goes to out from at, and all else stays.
fn write_record(out: &mut [u8], at: usize, l: Leaf)
    requires { Room out.old at l }
    ensures { out.new ≡ overlaid out.old at (value_record l) }
{
    out[at] = kind_byte(l.exact);
    out[at + 1] = l.len as u8;
    write_bytes(out, at + CUT_AT, &l.cut);
    write32(out, at + SUFFIX_AT, l.suffix);
}

// The records of the leaves from a walker's place on go to the front of out, of as many as it holds whole, and all else stays; their length.
// What the cursor keeps is lent to each move, so that no leaf copies it. `open` and `open_accepted` of `walk_states` give what is required.
pub fn write_leaves(from: &Walker, out: &mut [u8]) -> usize
    requires { Walks from.now }
    ensures { outcome (Ok result) out.new ≡ walk_records from.now.image.bytes.now from.now.cursor.place out.old }
{
    let mut trail = from.cursor.trail;
    let mut end = from.cursor.end;
    let room = out.len() / RECORD_SIZE;
    for count in 0..room {
        if from.cursor.place + count == from.image.frame.leaves {
            return RECORD_SIZE * count;
        }
        let l = padded(leaf_of(&from.image, trail.labels, end));
        write_record(out, RECORD_SIZE * count, l);
        end = advance(&from.image, &mut trail, end);
    }
    RECORD_SIZE * room
}

// Writes the records of the leaves from a place on. The image is checked once.
pub fn write_records(image: &[u8], place: usize, out: &mut [u8]) -> Result<usize, Refusal>
    ensures { outcome result out.new ≡ walk_records image.now place out.old }
{
    let from = open(image, place)?;
    Ok(write_leaves(&from, out))
}
