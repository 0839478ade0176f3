// Prints what a walk over the image on standard input says at each place from 0 to 5, and behind each what it says after its next move. Done stays done, and a place behind it is refused.
#![tactic(auto)]

ghost use Rattle.std.specs.Prelude.{◌≡◌, ◌^◌, ◌<◌, Some, Ok};
ghost use Rattle.image.specs.declared.Leaf.{Leaf};
ghost use Rattle.image.specs.Value.{Sized};

use image::Leaf;
use image::refusals::Refusal;
use print_pages::input::read_full;
use print_text::lines::{LONGEST_LINE, write_line, write_refused};
use std::io;
use std::io::Write;
use walk::{next, walk};

// The places that are asked: the four leaves of list A, done, and one behind it.
const PLACES: usize = 6;

// What a walk says, as a line: its leaf with a number, `done`, or `refused` and the number of the refusal.
fn print_said<W: Write>(
    writer: &mut W,
    said: Result<Option<Leaf>, Refusal>,
    number: usize,
) -> io::Result<()>
    requires { ((l : Leaf) → said ≡ Ok (Some l) → Sized l) × (number < 10 ^ 10) }
{
    let mut line = [0u8; LONGEST_LINE];
    let len = match said {
        Ok(None) => return writer.write_all(b"done\n"),
        Ok(Some(leaf)) => write_line(&mut line, 0, number, leaf),
        Err(refusal) => write_refused(&mut line, 0, refusal.number() as usize),
    };
    writer.write_all(&line[..len])
}

fn main(rt: HostRuntime) -> io::Result<()> {
    let mut input = [0u8; 256];
    let len = read_full(&mut rt.stdin(), &mut input)?;
    let mut writer = rt.stdout();
    for place in 0..PLACES {
        print_said(&mut writer, walk(&input[..len], place), place)?;
        print_said(&mut writer, next(&input[..len], place), place + 1)?;
    }
    Ok(())
}
