// Which column of a sheet has which name.
ghost use Rattle.std.specs.Prelude.{◌≡◌};
ghost use Rattle.lines.specs.Reading.{line_of};
ghost use Rattle.lines.specs.Tokens.{number_of};
ghost use Rattle.orders.specs.Columns.{text_in, column_of, columns, named_columns, columns_of, wrong};

use faults::Fault;
use lines::Line;

// How many columns a sheet has.
pub(crate) const COLUMNS: u16 = 6;

// The columns of the six names, counted from 1. Each has a field: as an array, each use would be an index, and need an enum of the six names.
#[derive(Clone, Copy)]
pub struct Columns {
    pub(crate) order: u16,
    pub(crate) peer: u16,
    pub(crate) item: u16,
    pub(crate) replica: u16,
    pub(crate) value: u16,
    pub(crate) number: u16,
}

impl Columns {
    // The names in the order in which they are listed.
    pub fn listed() -> Columns
        ensures { result ≡ columns 1 2 3 4 5 6 }
    {
        Columns {
            order: 1,
            peer: 2,
            item: 3,
            replica: 4,
            value: 5,
            number: 6,
        }
    }
}

// The fault of a line that has other fields than it should.
pub(crate) fn wrong_fields(line: Line) -> Fault
    ensures { result ≡ wrong (line_of line.entry) }
{
    Fault::WrongFields(u64::from(line.count()))
}

// The number that a line has in a column, if it can be read.
pub(crate) fn number_in(line: Line, column: u16) -> Option<u64>
    ensures { result ≡ number_of (text_in (line_of line.entry) column) }
{
    line.field(column).number()
}

// The column of a line that has a name.
fn column_of(line: Line, name: &str) -> Option<u16>
    ensures { result ≡ column_of (line_of line.entry) name.now }
{
    (1..COLUMNS + 1).find(|c| line.field(*c).says(name))
}

fn named_columns(line: Line) -> Option<Columns>
    ensures { result ≡ named_columns (line_of line.entry) }
{
    Some(Columns {
        order: column_of(line, "order")?,
        peer: column_of(line, "peer")?,
        item: column_of(line, "item")?,
        replica: column_of(line, "replica")?,
        value: column_of(line, "value")?,
        number: column_of(line, "number")?,
    })
}

// The line as the names of the columns, in any order.
pub fn read_columns(line: Line) -> Result<Columns, Fault>
    ensures { result ≡ columns_of (line_of line.entry) }
{
    if line.count() != COLUMNS {
        return Err(wrong_fields(line));
    }
    named_columns(line).ok_or(wrong_fields(line))
}
