// Samples of a finished S-LOUDS body, counted by words.
ghost use Rattle.std.specs.Prelude.{◌≡◌};
ghost use Rattle.spec.specs.Bytes.{blocks};
ghost use Rattle.bits.specs.Bits.{overlaid, rank};
ghost use Rattle.rank_tables.specs.TableEntries.{sample_table};
ghost use Rattle.rank_tables.specs.Tables.{spanned, SamplesRoom};

use super::Span;
use bits::numbers::write32;
use bits::ranks::rank_from;
use bits_select::select::select_in;
use image::SAMPLE_RATE;

// The table of samples goes to out from `table`: entry t is the position of the set bit number 64 t, counted from 0, among the first bits of the finished body.
// The ones are counted in a shared part, the body; then the part from the table's start is lent to write the entry.
pub fn fill_samples(out: &mut [u8], body: Span, bits: usize, table: usize)
    requires { SamplesRoom out.old body bits table }
    ensures { out.new ≡ overlaid out.old table (sample_table (spanned out.old body) bits (blocks 64 (rank (spanned out.old body) bits))) }
{
    let from = body.at;
    let end = from + body.len;
    let mut ones = 0usize; // the ones before the word
    let mut t = 0usize; // the next entry
    for q in 0..bits.div_ceil(64) {
        let before = ones;
        ones = rank_from(&out[from..end], q, before, bits.min(64 * q + 64));
        if SAMPLE_RATE * t < ones {
            let p = select_in(&out[from..end], bits, q, SAMPLE_RATE * t - before);
            write32(&mut out[table..], 4 * t, p);
            t += 1;
        }
    }
}
