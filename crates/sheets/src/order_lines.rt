// The order lines of a sheet that are still to be answered.
use lines::Lines;
use orders::Columns;

// A sheet after its first three lines: which column is which, and what is left to read.
#[derive(Clone, Copy)]
pub struct OrderLines<'s> {
    pub(crate) lines: Lines<'s>,
    pub(crate) columns: Columns,
}
