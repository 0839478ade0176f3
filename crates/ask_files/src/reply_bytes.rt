// Reply bytes, and replies by value.
ghost use Rattle.std.specs.Prelude.{◌≡◌, [], ◌+◌, ◌≤◌, length};
ghost use Rattle.spec.specs.Questions.{reply_bytes};
ghost use Rattle.bits.specs.Bits.{overlaid};
ghost use Rattle.ask_files.specs.ReplyLaws.{answer};
ghost use Rattle.ask_files.specs.ReplyContracts.{reply_mark, reply_head, reply_of, Sized};

use bits::copy::write_bytes;
use bits::numbers::write32;

// The bytes of a reply before its key: the mark, the letter, the number and the key's length.
pub const REPLY_HEAD: usize = 8;

// A reply by value, its key in a buffer: the letter, the number, and how many bytes of the buffer are the key.
#[derive(Clone, Copy)]
pub struct Answered {
    pub letter: u8,
    pub number: usize,
    pub n: usize,
}

// A reply's mark and letter go to out from at, and all else stays.
fn write_mark(out: &mut [u8], at: usize, letter: u8)
    requires { at + 3 ≤ length out.old }
    ensures { out.new ≡ overlaid out.old at (reply_mark letter) }
{
    out[at] = b'A';
    out[at + 1] = b'N';
    out[at + 2] = letter;
}

// A reply's first eight bytes go to out from at, and all else stays: the mark, the letter, the number, and the length of a key of n bytes.
fn write_head(out: &mut [u8], at: usize, letter: u8, number: usize, n: usize)
    requires { (at + 8 ≤ length out.old) × (n ≤ 64) }
    ensures { out.new ≡ overlaid out.old at (reply_head letter number n) }
{
    write_mark(out, at, letter);
    write32(out, at + 3, number);
    out[at + 7] = n as u8;
}

// A reply's bytes go to out from at, and all else stays; the offset behind them.
pub fn write_reply(out: &mut [u8], at: usize, letter: u8, number: usize, key: &[u8]) -> usize
    requires { (at + 8 + length key.now ≤ length out.old) × (length key.now ≤ 64) }
    ensures { (result ≡ at + 8 + length key.now) × (out.new ≡ overlaid out.old at (reply_bytes (answer letter number key.now))) }
{
    write_head(out, at, letter, number, key.len());
    write_bytes(out, at + REPLY_HEAD, key);
    at + REPLY_HEAD + key.len()
}

// A reply without a key.
pub fn keyless(letter: u8, number: usize) -> Answered
    ensures { (result.n ≡ 0) × (reply_of result [] ≡ answer letter number []) }
{
    Answered {
        letter,
        number,
        n: 0,
    }
}

// The bytes of a reply by value go to out from at, and all else stays; the offset behind them.
pub fn write_answered(out: &mut [u8], at: usize, a: Answered, key: &[u8]) -> usize
    requires { Sized a key.now × (at + 8 + a.n ≤ length out.old) }
    ensures { (result ≡ at + 8 + a.n) × (out.new ≡ overlaid out.old at (reply_bytes (reply_of a key.now))) }
{
    write_reply(out, at, a.letter, a.number, &key[..a.n])
}
