// An image: the three kinds of positions, what a header says, the frame, a leaf by value, refusals; and what the builder shares with the check and the questions: the table of the records, the range of the settings, and a key's suffix bits as a number.

#![tactic(auto)]

ghost use Rattle.std.specs.Prelude.{ℕ, ◌<◌, slice_index};
ghost use Rattle.image.specs.FrameOf.{FrameOf};
ghost use Rattle.image.specs.Accepted.{Accepted};
ghost use Rattle.image.specs.AcceptedProp.{Accepted-prop};
ghost use Rattle.image.specs.Inside.{Inside};

pub mod table; // table.rt: marks, body lengths and starts of the records
pub mod header_bytes; // header_bytes.rt: settings judged, the header read and written, and the beginning of a record
pub mod suffix; // suffix.rt: a key's suffix bits as a number
pub mod refusals; // refusals.rt: why a call refuses, with the numbers of refusals
pub mod codes; // codes.rt: an answer as one number, and settings as one number

// The version of the format whose images have a thirteenth record, LV: the first node of each level.
pub const LEVELED_VERSION: usize = 2;

// The bytes of a level's first node in LV.
pub const LEVEL_START_BYTES: usize = 4;

// No trie has more levels, and no cut key more bytes.
pub const MAX_LEVELS: usize = 64;

// The bits of a dense node's row in D-Labels and in D-HasChild, one for each label.
pub const ROW_BITS: usize = 256;

// The bytes of a dense node's row.
pub const ROW_BYTES: usize = 32;

// The 64-bit words of a dense node's row.
pub const ROW_WORDS: usize = 4;

// The extra label of a sparse node that is an exact leaf: it stands before the node's other labels.
pub const EXTRA_LABEL: u8 = 255;

// The bits of a dense body that one rank entry stands for.
pub const DENSE_BLOCK_BITS: usize = 64;

// The words of a dense body that one rank entry stands for.
pub const DENSE_BLOCK_WORDS: usize = 1;

// The bits of S-HasChild that one rank entry stands for.
pub const SPARSE_BLOCK_BITS: usize = 512;

// The words of S-HasChild that one rank entry stands for.
pub const SPARSE_BLOCK_WORDS: usize = 8;

// S-LOUDS has a sample for every 64th set bit, from the first on.
pub const SAMPLE_RATE: usize = 64;

// A start for each of the twelve records of both versions, and the end of the last.
pub const STARTS: usize = 13;

// A bit position.
#[derive(Clone, Copy)]
pub struct BitPos(pub usize);

// A node's number in level order.
#[derive(Clone, Copy)]
pub struct NodeNum(pub usize);

// A value position: a suffix slot's number in level order.
#[derive(Clone, Copy)]
pub struct ValuePos(pub usize);

// The settings of an image that is to be built, in range or not: the version, the dense levels, and how many real bits and hash bits a suffix slot has.
#[derive(Clone, Copy)]
pub struct Settings {
    pub version: usize,
    pub dense_levels: usize,
    pub real_width: usize,
    pub hash_width: usize,
}

// The dense nodes by the header: on how many levels they are, and how many there are.
#[derive(Clone, Copy)]
pub struct Dense {
    pub levels: usize,
    pub nodes: usize,
}

// The sparse nodes by the header: how many there are, and how many entries they have.
#[derive(Clone, Copy)]
pub struct Sparse {
    pub nodes: usize,
    pub entries: usize,
}

// What a header says: the version, how many real bits and hash bits a suffix slot has, the leaves, and the dense and sparse nodes.
#[derive(Clone, Copy)]
pub struct Header {
    pub version: usize,
    pub real_width: usize,
    pub hash_width: usize,
    pub leaves: usize,
    pub dense: Dense,
    pub sparse: Sparse,
}

// The continuing branches of all dense nodes, and their entries: branches and exact leaves together.
#[derive(Clone, Copy)]
pub struct DenseTotals {
    pub children: usize,
    pub entries: usize,
}

// The frame of an image: what its header says, the width of a suffix slot, which is its hash bits and real bits together, the totals of its dense nodes, and the offset of each record's body. LV's goes up to the end of the image; where the version has none, its offset is that end.
#[derive(Clone, Copy)]
pub struct Frame {
    pub version: usize,
    pub real_width: usize,
    pub hash_width: usize,
    pub width: usize,
    pub leaves: usize,
    pub dense: Dense,
    pub sparse: Sparse,
    pub totals: DenseTotals,
    pub dl: usize,
    pub dc: usize,
    pub dp: usize,
    pub sl: usize,
    pub sc: usize,
    pub sb: usize,
    pub sv: usize,
    pub rl: usize,
    pub rc: usize,
    pub rp: usize,
    pub rs: usize,
    pub ts: usize,
    pub lv: usize,
}

// An image with its frame: what the tests of the numbers 13 to 16 read.
#[derive(Clone, Copy)]
pub struct FramedImage<'a> {
    pub bytes: &'a [u8],
    pub frame: Frame,
    ghost in_range: { (i : ℕ) → slice_index bytes.now i < 256 },
    ghost framed: { FrameOf bytes.now frame },
}

// An image that the check has accepted, with its frame: what the questions and the walk read. That its bodies lie within it follows (`Inside.accepted_inside`), and stands here so that each reader has it at hand.
#[derive(Clone, Copy)]
pub struct AcceptedImage<'a> {
    pub bytes: &'a [u8],
    pub frame: Frame,
    ghost in_range: { (i : ℕ) → slice_index bytes.now i < 256 },
    ghost inside: { Inside bytes.now frame },
    ghost accepted: { Accepted bytes.now frame } by { Accepted-prop bytes.now frame },
}

// A leaf by value: the cut key is the first len bytes of cut; the suffix bits are the low width bits of suffix, the first one lowest, as the suffix slots hold them.
#[derive(Clone, Copy)]
pub struct Leaf {
    pub cut: [u8; MAX_LEVELS],
    pub len: usize,
    pub exact: bool,
    pub suffix: usize,
    pub width: usize,
}
