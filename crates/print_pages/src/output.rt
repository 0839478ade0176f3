// Reading the input, and writing its text. No contract can say which bytes the system gives or takes;
// what is handed on is, page after page, the text of the input, which the loop that writes the pages keeps as its invariant.
ghost use Rattle.std.specs.Prelude.{◌≤◌, length};
ghost use Rattle.print_text.specs.Texts.{longest_line};
ghost use Rattle.print_pages.specs.Printing.{Progress};
ghost use Rattle.print_pages.specs.Handing.{Handed};

use super::input::read_full;
use super::opening::open;
use super::pages::write_page;
use std::io;
use std::io::{Read, Write};
use walk::walker::Walker;

// The bytes of a page.
const PAGE: usize = 16384;

// One byte more than the longest image, so that a longer input shows.
const INPUT: usize = 65537;

// How much of a text has been handed on: its first bytes, and whether they are all.
#[derive(Clone, Copy)]
pub struct Sent {
    pub bytes: usize,
    pub all: bool,
}

// The lines of an image's leaves from a walker's on, page after page, until all are written or a page cannot be. The first bytes of the text, `sent` of them, have been written before. Gives how much of the text has been handed on, also where a write failed, and why one failed.
fn write_pages<'a, W: Write>(
    from: Walker<'a>,
    sent: usize,
    page: &mut [u8],
    writer: &mut W,
) -> (Sent, io::Result<()>)
    requires { Progress from.image.bytes.now from sent × (longest_line ≤ length page.old) }
    ensures { Handed from.entry.image.bytes.now result.0 }
{
    let mut at = from;
    let mut bytes = sent;
    loop {
        let written = write_page(at, page);
        if written.len == 0 {
            return (Sent { bytes, all: true }, Ok(()));
        }
        if let Err(error) = writer.write_all(&page[..written.len]) {
            return (Sent { bytes, all: false }, Err(error));
        }
        bytes += written.len;
        at = written.next;
    }
}

// The text of an input. Gives what `write_pages` does.
fn write_text<W: Write>(input: &[u8], writer: &mut W) -> (Sent, io::Result<()>)
    ensures { Handed input.now result.0 }
{
    let mut page = [0u8; PAGE];
    let opening = open(input, &mut page);
    let bytes = opening.len;
    if let Err(error) = writer.write_all(&page[..bytes]) {
        let sent = Sent {
            bytes: 0,
            all: false,
        };
        return (sent, Err(error));
    }
    match opening.lines {
        None => (Sent { bytes, all: true }, Ok(())),
        Some(from) => write_pages(from, bytes, &mut page, writer),
    }
}

// Prints the leaves of the image that a reader gives: its text goes to a writer.
// The buffers take 81,921 bytes of stack: the input and a page.
pub fn print<R: Read, W: Write>(reader: &mut R, writer: &mut W) -> io::Result<()> {
    let mut input = [0u8; INPUT];
    let len = read_full(reader, &mut input)?;
    let (_, written) = write_text(&input[..len], writer);
    written
}
