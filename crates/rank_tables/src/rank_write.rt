// Ranks of a finished body, counted by words.
ghost use Rattle.std.specs.Prelude.{◌≡◌, ◌*◌};
ghost use Rattle.bits.specs.Bits.{overlaid};
ghost use Rattle.rank_tables.specs.TableEntries.{rank_table};
ghost use Rattle.rank_tables.specs.Tables.{spanned, RanksRoom};

use super::Span;
use bits::numbers::write32;
use bits::ranks::rank_from;

// The table of n ranks goes to out from `table`: entry b is the number of ones before block b of the finished body. A block has so many words.
// The ones are counted in a shared part, the body; then the part from the table's start is lent to write the entry.
pub fn fill_ranks(out: &mut [u8], body: Span, table: usize, n: usize, words: usize)
    requires { RanksRoom out.old body table n words }
    ensures { out.new ≡ overlaid out.old table (rank_table (64 * words) (spanned out.old body) n) }
{
    let from = body.at;
    let end = from + body.len;
    let mut q = 0usize; // the first word that is not counted yet
    let mut r = 0usize; // the ones before it
    for b in 0..n {
        r = rank_from(&out[from..end], q, r, 64 * (words * b));
        q = words * b;
        write32(&mut out[table..], 4 * b, r);
    }
}
