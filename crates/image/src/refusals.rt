// The numbers with which the calls refuse, each with the calls that give it and its cause, as in the section "Turning a file down" of docs/format.md. The names are the same there, in C, in Rust and on the command line (tests/tests/files_refusals.rs). The calls over an accepted image give 17, 22 and 23, for the same causes. Number 6 is retired by order 9 and never used again.
ghost use Rattle.std.specs.Prelude.{◌≡◌};
ghost use Rattle.image.specs.Refusals.{number_of};

// Why a call refuses what is lent to it: what its calls answer in place of a value.
#[derive(Clone, Copy, Debug, PartialEq, Eq)]
pub enum Refusal {
    // 1, build: a record of fewer than three bytes, a mark that is not "KY", or key bytes missing.
    ListMalformed = 1,

    // 2, build: a key length of 0 or over 64.
    KeyLengthWrong = 2,

    // 3, build: a key that is not above the last one.
    KeysUnordered = 3,

    // 4, build: a record follows 65,535 others.
    TooManyKeys = 4,

    // 5, build: a version other than 1 and 2, dense levels over 4, n over 16, or h over 16.
    SettingOutOfRange = 5,

    // 7, build, second call: the image is longer than the output.
    OutputTooShort = 7,

    // 8, build, second call: the stated length is not the image's.
    StatedLengthWrong = 8,

    // 11, check, ask, walk: the header is short or has another mark, one of the version's records has another mark or runs past the end, or bytes are left over.
    FrameWrong = 11,

    // 12, check, ask, walk: version, dense levels, n or h wrong, over 65,535 leaves, or a body length, other than LV's, that the counts do not give, for SV with n and h.
    HeaderWrong = 12,

    // 13, check, ask, walk: a spare bit of DP, SC, SB or SV is set.
    SpareBitSet = 13,

    // 14, check, ask, walk: not a builder's trie, by the tests of the section of that name.
    TrieWrong = 14,

    // 15, check, ask, walk: an entry of RL, RC, RP, RS or TS is wrong; or LV, its length included.
    TableWrong = 15,

    // 16, check, ask, walk: an exact leaf's slot is not zero, or a real bit of an open leaf is set past a key's 64th byte.
    SlotWrong = 16,

    // 17, walk: the place is above the leaf count.
    PlaceOutOfRange = 17,

    // 21, ask: a question's mark is none of the five, or bytes are missing.
    QuestionMalformed = 21,

    // 22, ask: a length over 64.
    KeyTooLong = 22,

    // 23, ask: a lower bound above the upper.
    BoundsReversed = 23,

    // 24, ask: a question follows 1,024 others.
    TooManyQuestions = 24,

    // 25, ask: the replies are longer than the reply buffer.
    ReplyBufferTooShort = 25,
}

impl Refusal {
    // The number of a refusal, which programs in other languages see.
    pub fn number(self) -> u32
        ensures { result ≡ number_of self }
    {
        self as u32
    }
}
