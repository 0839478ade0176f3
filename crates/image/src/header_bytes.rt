// Settings judged, the header read and written, and the beginning of a record.
ghost use Rattle.std.specs.Prelude.{◌≡◌, ◌++◌, ◌+◌, ◌≤◌, length};
ghost use Rattle.spec.specs.Bytes.{le32};
ghost use Rattle.spec.specs.Image.{header};
ghost use Rattle.spec.specs.Build.{in_range};
ghost use Rattle.bits.specs.Bits.{overlaid};
ghost use Rattle.image.specs.Header.{asked, settings_of, counts_of, ShortFields, ReadsHeader, mark_bytes, first_bytes};

use super::table::MARK_BYTES;
use super::{Dense, Header, LEVELED_VERSION, Settings, Sparse};
use bits::numbers::{read32, write32};

// The first version of the format; the other one is LEVELED_VERSION.
const FIRST_VERSION: usize = 1;

// No image has more dense levels.
const MAX_DENSE_LEVELS: usize = 4;

// No suffix slot has more real bits.
const MAX_REAL_BITS: usize = 16;

// No suffix slot has more hash bits.
const MAX_HASH_BITS: usize = 16;

// No image has more leaves.
pub const MAX_LEAVES: usize = 65535;

// The offset of the version in a header.
pub const VERSION_AT: usize = 2;

// The offset of the number of dense levels in a header.
const DENSE_LEVELS_AT: usize = 3;

// The offset of the number of real bits in a header.
const REAL_WIDTH_AT: usize = 4;

// The offset of the number of hash bits in a header.
const HASH_WIDTH_AT: usize = 5;

// The offset of the number of leaves in a header.
const LEAVES_AT: usize = 6;

// The offset of the number of dense nodes in a header.
const DENSE_NODES_AT: usize = 10;

// The offset of the number of sparse entries in a header.
const SPARSE_ENTRIES_AT: usize = 14;

// The offset of the number of sparse nodes in a header.
const SPARSE_NODES_AT: usize = 18;

// Whether settings are in range: version 1 or 2, and no more dense levels, real bits and hash bits than there may be.
#[tactic(auto, unfolding(spec::specs::Build::in_range, spec::specs::Image::known_version))]
pub fn settings_in_range(settings: Settings) -> bool
    ensures { result ≡ in_range (asked settings) }
{
    (settings.version == FIRST_VERSION || settings.version == LEVELED_VERSION)
        && settings.dense_levels <= MAX_DENSE_LEVELS
        && settings.real_width <= MAX_REAL_BITS
        && settings.hash_width <= MAX_HASH_BITS
}

// The mark's two bytes go to out from at, and all else stays.
fn write_mark(out: &mut [u8], at: usize, mark: &[u8; MARK_BYTES])
    requires { at + 2 ≤ length out.old }
    ensures { out.new ≡ overlaid out.old at (mark_bytes mark.now) }
{
    out[at..at + MARK_BYTES].copy_from_slice(mark);
}

// A record begins at `at`: its mark and the length of its body, which goes behind them.
pub fn begin_record(out: &mut [u8], at: usize, mark: &[u8; MARK_BYTES], len: usize)
    requires { at + 6 ≤ length out.old }
    ensures { out.new ≡ overlaid out.old at (mark_bytes mark.now ++ le32 len) }
{
    write_mark(out, at, mark);
    write32(out, at + MARK_BYTES, len);
}

// The header's first six bytes: its mark and the settings.
fn write_settings(out: &mut [u8], version: u8, dense: u8, n: u8, h: u8)
    requires { 6 ≤ length out.old }
    ensures { out.new ≡ overlaid out.old 0 (first_bytes version dense n h) }
{
    out[..LEAVES_AT].copy_from_slice(&[b'H', b'D', version, dense, n, h]);
}

// The header.
pub fn write_header(out: &mut [u8], h: Header)
    requires { ShortFields h × (22 ≤ length out.old) }
    ensures { out.new ≡ overlaid out.old 0 (header (settings_of h) (counts_of h)) }
{
    write_settings(
        out,
        h.version as u8,
        h.dense.levels as u8,
        h.real_width as u8,
        h.hash_width as u8,
    );
    write32(out, LEAVES_AT, h.leaves);
    write32(out, DENSE_NODES_AT, h.dense.nodes);
    write32(out, SPARSE_ENTRIES_AT, h.sparse.entries);
    write32(out, SPARSE_NODES_AT, h.sparse.nodes);
}

// What the first 22 bytes say as a header.
pub fn read_header(image: &[u8]) -> Header
    requires { 22 ≤ length image.now }
    ensures { ReadsHeader image.now result }
{
    Header {
        version: usize::from(image[VERSION_AT]),
        real_width: usize::from(image[REAL_WIDTH_AT]),
        hash_width: usize::from(image[HASH_WIDTH_AT]),
        leaves: read32(image, LEAVES_AT),
        dense: Dense {
            levels: usize::from(image[DENSE_LEVELS_AT]),
            nodes: read32(image, DENSE_NODES_AT),
        },
        sparse: Sparse {
            nodes: read32(image, SPARSE_NODES_AT),
            entries: read32(image, SPARSE_ENTRIES_AT),
        },
    }
}
