// The dense bodies, with a row for each node: in D-Labels and D-HasChild of a bit for each label, in D-IsPrefixKey of one bit.
ghost use Rattle.build_laws.specs.declared.Kind.TheVariants.{DL, DC, DP};

use super::Counters;
use super::entries::EntryBody;
use super::put::put_cell;
use build_laws::{Cell, Entry};
use image::ROW_BITS;

// D-Labels: the label of each entry; an exact leaf has none.
#[derive(Clone, Copy)]
pub struct DenseLabels;

impl EntryBody for DenseLabels {
    ghost kind = { DL };

    fn put(&self, out: &mut [u8], cur: &mut Counters, d: usize, e: Entry) {
        let x = Cell {
            start: e.start,
            set: !e.exact,
            column: usize::from(e.label),
        };
        put_cell(out, cur, d, ROW_BITS, x);
    }
}

// D-HasChild: the label of each entry that continues.
#[derive(Clone, Copy)]
pub struct DenseHasChild;

impl EntryBody for DenseHasChild {
    ghost kind = { DC };

    fn put(&self, out: &mut [u8], cur: &mut Counters, d: usize, e: Entry) {
        let x = Cell {
            start: e.start,
            set: e.child,
            column: usize::from(e.label),
        };
        put_cell(out, cur, d, ROW_BITS, x);
    }
}

// D-IsPrefixKey: a bit for each node, set where an exact leaf starts it.
#[derive(Clone, Copy)]
pub struct DenseIsPrefixKey;

impl EntryBody for DenseIsPrefixKey {
    ghost kind = { DP };

    fn put(&self, out: &mut [u8], cur: &mut Counters, d: usize, e: Entry) {
        let x = Cell {
            start: e.start,
            set: e.exact,
            column: 0,
        };
        put_cell(out, cur, d, 1, x);
    }
}
