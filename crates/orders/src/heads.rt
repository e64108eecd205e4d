// The first two lines of a sheet.
ghost use Rattle.std.specs.Prelude.{◌≡◌};
ghost use Rattle.lines.specs.Reading.{line_of};
ghost use Rattle.orders.specs.Heads.{names_settings, names_of, numbers_of};

use crate::columns::{number_in, wrong_fields};
use faults::Fault;
use lines::Line;

fn names_settings(line: Line) -> bool
    ensures { result ≡ names_settings (line_of line.entry) }
{
    line.count() == 2 && line.field(1).says("size") && line.field(2).says("copies")
}

// The line as the names of the settings.
pub fn read_names(line: Line) -> Result<(), Fault>
    ensures { result ≡ names_of (line_of line.entry) }
{
    if names_settings(line) {
        Ok(())
    } else {
        Err(wrong_fields(line))
    }
}

// The line as the two numbers of the settings.
pub fn read_numbers(line: Line) -> Result<(u64, u64), Fault>
    ensures { result ≡ numbers_of (line_of line.entry) }
{
    if line.count() != 2 {
        return Err(wrong_fields(line));
    }
    let size = number_in(line, 1).ok_or(Fault::Unreadable(1))?;
    let copies = number_in(line, 2).ok_or(Fault::Unreadable(2))?;
    Ok((size, copies))
}
