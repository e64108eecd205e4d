// What a line orders.
ghost use Rattle.std.specs.Prelude.{◌≡◌};
ghost use Rattle.lines.specs.Reading.{line_of};
ghost use Rattle.orders.specs.Columns.{text_in};
ghost use Rattle.orders.specs.Orders.{verb_of, uses, fits, unreadable, first_unreadable, number_in, call_of, read_order};

use crate::columns::{COLUMNS, Columns, number_in, wrong_fields};
use faults::Fault;
use lines::Line;
use rules::Call;

// The six orders.
#[derive(Clone, Copy)]
pub enum Verb {
    Join,
    Leave,
    Insert,
    Lookup,
    Deliver,
    Collect,
}

// The order that a word gives.
fn verb_of(word: &[u8]) -> Option<Verb>
    ensures { result ≡ verb_of word.now }
{
    match word {
        b"join" => Some(Verb::Join),
        b"leave" => Some(Verb::Leave),
        b"insert" => Some(Verb::Insert),
        b"lookup" => Some(Verb::Lookup),
        b"deliver" => Some(Verb::Deliver),
        b"collect" => Some(Verb::Collect),
        _ => None,
    }
}

impl Columns {
    // Whether an order has a number in a column.
    fn uses(self, verb: Verb, column: u16) -> bool
        ensures { result ≡ uses self verb column }
    {
        match verb {
            Verb::Join | Verb::Leave => column == self.peer,
            Verb::Insert => column == self.item || column == self.value,
            Verb::Lookup => column == self.item || column == self.replica,
            Verb::Deliver | Verb::Collect => column == self.number,
        }
    }
}

// A line after the first three, with the sheet's columns.
#[derive(Clone, Copy)]
struct OrderLine<'s> {
    line: Line<'s>,
    columns: Columns,
}

impl<'s> OrderLine<'s> {
    fn verb(self) -> Option<Verb>
        ensures { result ≡ verb_of (text_in (line_of self.entry.line) self.entry.columns.order) }
    {
        verb_of(self.line.field(self.columns.order).text())
    }

    // Whether the field in a column beside the order word can be read.
    fn fits(self, verb: Option<Verb>, column: u16) -> bool
        ensures { result ≡ fits self.entry.columns verb column (text_in (line_of self.entry.line) column) }
    {
        let field = self.line.field(column);
        match verb {
            None => field.is_dash() || field.number().is_some(),
            Some(verb) if self.columns.uses(verb, column) => field.number().is_some(),
            Some(_) => field.is_dash(),
        }
    }

    fn is_unreadable(self, verb: Option<Verb>, column: u16) -> bool
        ensures { result ≡ unreadable self.entry.columns verb (line_of self.entry.line) column }
    {
        if column == self.columns.order {
            verb.is_none()
        } else {
            !self.fits(verb, column)
        }
    }

    fn first_unreadable(self, verb: Option<Verb>) -> Option<u16>
        ensures { result ≡ first_unreadable self.entry.columns verb (line_of self.entry.line) }
    {
        (1..COLUMNS + 1).find(|c| self.is_unreadable(verb, *c))
    }

    // The number in a column that was found readable before. For an `unwrap` in place of the 0, `Columns` would have to promise that its six
    // columns lie in 1 to 6 and differ, and the six searches by name to prove it: far more text than the 0, which no sheet meets.
    fn value(self, column: u16) -> u64
        ensures { result ≡ number_in (line_of self.entry.line) column }
    {
        number_in(self.line, column).unwrap_or(0)
    }

    fn call(self, verb: Verb) -> Call
        ensures { result ≡ call_of self.entry.columns (line_of self.entry.line) verb }
    {
        let columns = self.columns;
        match verb {
            Verb::Join => Call::Join(self.value(columns.peer)),
            Verb::Leave => Call::Leave(self.value(columns.peer)),
            Verb::Insert => Call::Insert(self.value(columns.item), self.value(columns.value)),
            Verb::Lookup => Call::Lookup(self.value(columns.item), self.value(columns.replica)),
            Verb::Deliver => Call::Deliver(self.value(columns.number)),
            Verb::Collect => Call::Collect(self.value(columns.number)),
        }
    }
}

// The line as an order: the call that it asks for, or why it is refused.
pub fn read_order(line: Line, columns: Columns) -> Result<Call, Fault>
    ensures { result ≡ read_order columns (line_of line.entry) }
{
    if line.count() != COLUMNS {
        return Err(wrong_fields(line));
    }
    let order = OrderLine { line, columns };
    let verb = order.verb();
    if let Some(column) = order.first_unreadable(verb) {
        return Err(Fault::Unreadable(u64::from(column)));
    }
    // no sheet meets this fault, but `Columns` does not promise that the order's column lies in 1 to 6
    let verb = verb.ok_or(Fault::Unreadable(u64::from(columns.order)))?;
    Ok(order.call(verb))
}
