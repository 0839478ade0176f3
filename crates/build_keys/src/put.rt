// A byte or a bit written at a level's cursor, which moves on.
ghost use Rattle.std.specs.Prelude.{◌≡◌, [], ◌∷◌, ◌+◌, ◌*◌, ◌≤◌, ◌<◌, length};
ghost use Rattle.build_laws.specs.Emissions.{emission};
ghost use Rattle.build_laws.specs.BitPass.{Room};
ghost use Rattle.build_laws.specs.BytePass.{byte_state, put_byte, one_step, at_cursor};
ghost use Rattle.build_laws.specs.DenseRows.{cell_step, cell_ones};
ghost use Rattle.build_laws.specs.BodyLaws.{bit_at};
ghost use Rattle.build_laws.specs.Passes.{set_at_cursor};
ghost use Rattle.build_laws.specs.Limits.{counter_max};

use super::Counters;
use bits::ranks::set_bit;
use build_laws::Cell;
use image::{BitPos, NodeNum};

// The byte x is written at the cursor of level d, which moves on by one.
pub fn put_byte(out: &mut [u8], cur: &mut Counters, d: usize, x: u8)
    requires { Room one_step at_cursor (length out.old) counter_max (emission d x ∷ []) cur.old }
    ensures { byte_state out.new cur.new ≡ put_byte (emission d x) (byte_state out.old cur.old) }
{
    out[cur[d] as usize] = x;
    cur[d] += 1;
}

// The bit at the cursor of level d is set if x holds, and the cursor moves on by one.
#[tactic(auto, unfolding(build_laws::specs::Passes::with_bits))]
pub fn put_bit(out: &mut [u8], cur: &mut Counters, d: usize, x: bool)
    requires { Room one_step bit_at (8 * length out.old) counter_max (emission d x ∷ []) cur.old }
    ensures { byte_state out.new cur.new ≡ set_at_cursor one_step bit_at (emission d x) (byte_state out.old cur.old) }
{
    let i = cur[d] as usize;
    cur[d] += 1;
    if x {
        set_bit(out, i);
    }
}

// The bit in a column of a node's row of w bits.
fn row_bit(w: usize, node: NodeNum, column: usize) -> BitPos
    requires { (w ≤ 256) × (node.0 ≤ counter_max) × (column < 256) }
    ensures { result.0 ≡ w * node.0 + column }
{
    BitPos(w * node.0 + column)
}

// The cursor of level d moves on if the cell starts a node. The cell's bit, if it is set, is set in the row of the node started last, which has w bits.
#[tactic(auto, unfolding(build_laws::specs::Passes::with_bits))]
pub fn put_cell(out: &mut [u8], cur: &mut Counters, d: usize, w: usize, x: Cell)
    requires { (w ≤ 256) × (x.column < 256) × Room cell_step (cell_ones w) (8 * length out.old) counter_max (emission d x ∷ []) cur.old }
    ensures { byte_state out.new cur.new ≡ set_at_cursor cell_step (cell_ones w) (emission d x) (byte_state out.old cur.old) }
{
    let rows = cur[d] + u32::from(x.start);
    cur[d] = rows;
    if x.set {
        let at = row_bit(w, NodeNum(rows.saturating_sub(1) as usize), x.column);
        set_bit(out, at.0);
    }
}
