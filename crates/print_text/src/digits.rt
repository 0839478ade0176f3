// Bytes; numbers in decimal digits; keys in capital hexadecimal digits.
ghost use Rattle.std.specs.Prelude.{◌≡◌, [], ◌∷◌, ◌+◌, ◌*◌, ◌≤◌, ◌<◌, length};
ghost use Rattle.spec.specs.Bytes.{letter};
ghost use Rattle.spec.specs.Print.{decimal, hex_digit, hex};
ghost use Rattle.print_text.specs.Writing.{Written};

use bits::copy::write_bytes;

// The byte x goes to out at `at`.
pub fn write_byte(out: &mut [u8], at: usize, x: u8) -> usize
    requires { at < length out.old }
    ensures { Written out.old at (x ∷ []) out.new result }
{
    out[at] = x;
    at + 1
}

// A text goes to out from `at` on.
pub fn write_text(out: &mut [u8], at: usize, text: &[u8]) -> usize
    requires { at + length text.now ≤ length out.old }
    ensures { Written out.old at text.now out.new result }
{
    write_bytes(out, at, text);
    at + text.len()
}

// The decimal digit of a number below ten.
pub fn digit(x: usize) -> u8
    requires { x < 10 }
    ensures { result ≡ letter "0" + x }
{
    b'0' + x as u8
}

// A number in decimal digits: those of its tenth, then its last.
pub fn write_decimal(out: &mut [u8], at: usize, n: usize) -> usize
    requires { at + length (decimal n) ≤ length out.old }
    ensures { Written out.old at (decimal n) out.new result }
{
    if n < 10 {
        return write_byte(out, at, digit(n));
    }
    let next = write_decimal(out, at, n / 10);
    write_byte(out, next, digit(n % 10))
}

// The capital hexadecimal digit of a number below sixteen.
fn hex_digit(x: u8) -> u8
    requires { x < 16 }
    ensures { result ≡ hex_digit x }
{
    if x < 10 {
        return b'0' + x;
    }
    b'A' + (x - 10)
}

// The two hexadecimal digits of a byte, the high one first.
fn write_hex_byte(out: &mut [u8], at: usize, x: u8) -> usize
    requires { at + 2 ≤ length out.old }
    ensures { Written out.old at (hex (x ∷ [])) out.new result }
{
    let next = write_byte(out, at, hex_digit(x / 16));
    write_byte(out, next, hex_digit(x % 16))
}

// A key in capital hexadecimal digits.
pub fn write_hex(out: &mut [u8], at: usize, key: &[u8]) -> usize
    requires { at + 2 * length key.now ≤ length out.old }
    ensures { Written out.old at (hex key.now) out.new result }
{
    let mut next = at;
    for &byte in key {
        next = write_hex_byte(out, next, byte);
    }
    next
}
