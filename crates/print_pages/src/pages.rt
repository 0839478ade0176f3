// The leaves' lines, a page at a time: as many whole lines as a buffer holds.
ghost use Rattle.std.specs.Prelude.{◌≤◌, length};
ghost use Rattle.walk_states.specs.Walks.{Walks};
ghost use Rattle.print_text.specs.Texts.{longest_line};
ghost use Rattle.print_pages.specs.Printing.{Paged};

use print_text::lines::{LONGEST_LINE, write_line};
use walk::walker::Walker;

// The bytes of a page, and the walker at the leaf that the next page starts with.
#[derive(Clone, Copy)]
pub struct Page<'a> {
    pub len: usize,
    pub next: Walker<'a>,
}

// The lines of the leaves from the walker's on, written into a page for as long as it has room for another line.
pub fn write_page<'a>(from: Walker<'a>, page: &mut [u8]) -> Page<'a>
    requires { Walks from × (longest_line ≤ length page.old) }
    ensures { Paged from.entry page.new result }
{
    let mut at = from;
    let mut len = 0usize;
    while LONGEST_LINE <= page.len() - len {
        let Some(leaf) = at.stand() else {
            return Page { len, next: at };
        };
        len = write_line(page, len, at.cursor.place, leaf);
        at = at.next();
    }
    Page { len, next: at }
}
