// A leaf's line, the first line of a listing, and the answers to a refused image and to an input that is too long.
ghost use Rattle.std.specs.Prelude.{[], ◌∷◌, ◌++◌, map, ◌+◌, ◌^◌, ◌≤◌, ◌<◌, length};
ghost use Rattle.spec.specs.Bytes.{letter, low_bits};
ghost use Rattle.spec.specs.Print.{decimal, suffix_text, line};
ghost use Rattle.image.specs.Value.{leaf_of, Sized};
ghost use Rattle.print_text.specs.Writing.{Written};
ghost use Rattle.print_text.specs.Texts.{bit_digit, kind_letter, cut_text, slot_text, longest_line, head_text, refused_text, too_long_text};

use super::digits::{digit, write_byte, write_decimal, write_hex, write_text};
use image::Leaf;

// Bits as digits: the low width bits of suffix, the lowest first.
fn write_bits(out: &mut [u8], at: usize, suffix: usize, width: usize) -> usize
    requires { (width ≤ 32) × (at + width ≤ length out.old) }
    ensures { Written out.old at (map bit_digit (low_bits width suffix)) out.new result }
{
    let mut next = at;
    for i in 0..width {
        next = write_byte(out, next, digit((suffix >> i) % 2));
    }
    next
}

// The suffix bits of an open leaf, hash bits before real bits, or "-" where there are none to print.
pub fn write_suffix(out: &mut [u8], at: usize, exact: bool, suffix: usize, width: usize) -> usize
    requires { (width ≤ 32) × (at + length (suffix_text exact (low_bits width suffix)) ≤ length out.old) }
    ensures { Written out.old at (suffix_text exact (low_bits width suffix)) out.new result }
{
    if exact || width == 0 {
        return write_byte(out, at, b'-');
    }
    write_bits(out, at, suffix, width)
}

// The kind's letter between blanks.
fn write_kind(out: &mut [u8], at: usize, exact: bool) -> usize
    requires { at + 3 ≤ length out.old }
    ensures { Written out.old at (letter " " ∷ kind_letter exact ∷ letter " " ∷ []) out.new result }
{
    if exact {
        return write_text(out, at, b" E ");
    }
    write_text(out, at, b" O ")
}

// A leaf's kind and cut key, as they stand in its line.
fn write_cut(out: &mut [u8], at: usize, l: Leaf) -> usize
    requires { Sized l × (at + length (cut_text (leaf_of l)) ≤ length out.old) }
    ensures { Written out.old at (cut_text (leaf_of l)) out.new result }
{
    let next = write_kind(out, at, l.exact);
    write_hex(out, next, &l.cut[..l.len])
}

// A leaf's suffix, as it stands in its line.
fn write_slot(out: &mut [u8], at: usize, l: Leaf) -> usize
    requires { Sized l × (at + length (slot_text (leaf_of l)) ≤ length out.old) }
    ensures { Written out.old at (slot_text (leaf_of l)) out.new result }
{
    let next = write_byte(out, at, b' ');
    write_suffix(out, next, l.exact, l.suffix, l.width)
}

// The bytes that a line takes at most.
pub const LONGEST_LINE: usize = 175;

// The line of leaf number i. A program that has LONGEST_LINE bytes left in its buffer has room for it.
pub fn write_line(out: &mut [u8], at: usize, i: usize, l: Leaf) -> usize
    requires { Sized l × (i < 10 ^ 10) × (at + longest_line ≤ length out.old) }
    ensures { Written out.old at (line i (leaf_of l)) out.new result }
{
    let kind = write_decimal(out, at, i);
    let slot = write_cut(out, kind, l);
    let end = write_slot(out, slot, l);
    write_byte(out, end, b'\n')
}

// A word and a number, as a line.
fn write_count(out: &mut [u8], at: usize, word: &[u8], n: usize) -> usize
    requires { (n < 10 ^ 10) × (at + length word.now + 11 ≤ length out.old) }
    ensures { Written out.old at (word.now ++ decimal n ++ (10 ∷ [])) out.new result }
{
    let number = write_text(out, at, word);
    let end = write_decimal(out, number, n);
    write_byte(out, end, b'\n')
}

// The first line of a listing of n leaves.
pub fn write_head(out: &mut [u8], at: usize, n: usize) -> usize
    requires { (n < 10 ^ 10) × (at + longest_line ≤ length out.old) }
    ensures { Written out.old at (head_text n) out.new result }
{
    write_count(out, at, b"leaves ", n)
}

// The answer to an image that is refused with number v.
pub fn write_refused(out: &mut [u8], at: usize, v: usize) -> usize
    requires { (v < 10 ^ 10) × (at + longest_line ≤ length out.old) }
    ensures { Written out.old at (refused_text v) out.new result }
{
    write_count(out, at, b"refused ", v)
}

// The answer to an input that is too long for an image.
pub fn write_too_long(out: &mut [u8], at: usize) -> usize
    requires { at + longest_line ≤ length out.old }
    ensures { Written out.old at too_long_text out.new result }
{
    write_text(out, at, b"too long\n")
}
