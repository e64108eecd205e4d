// The records of a log in a tray.
ghost use Rattle.std.specs.Prelude.{◌≡◌};
ghost use Rattle.rows.specs.Trays.{holding};
ghost use Rattle.logs.specs.Logs.{squeezed};
ghost use Rattle.log_shelves.specs.Trays.{places_in, records_in};
ghost use Rattle.log_shelves.specs.Held.{held_in};
ghost use Rattle.log_shelves.specs.Cells.{keeping, without};

use crate::LARGEST_SHELF;
use crate::forms::LineForm;
use copies::{Coordinate, Entry};
use logs::{Line, WIDTH, compact};
use rows::Tray;

pub type Records<'a> = Tray<'a, LineForm, WIDTH, LARGEST_SHELF>;

// Moves the live records of other coordinates to the front.
fn move_up(records: &mut Records<'_>, at: Coordinate)
    ensures { held_in records.new ≡ holding (held_in records.old) (squeezed at (records_in (held_in records.old))) }
{
    let count = records.count;
    records.count = compact(records.bytes, count, at);
}

// Appends a kept record. With no free one the live records of other coordinates move first.
pub fn keep(records: &mut Records<'_>, at: Coordinate, entry: Entry)
    ensures { held_in records.new ≡ keeping (held_in records.old) at entry }
{
    let line = Line::kept(at, entry);
    if records.add(line).is_err() {
        move_up(records, at);
        let _ = records.add(line);
    }
}

// Appends a gone record. With no free one it is not needed: the records of the coordinate go themselves.
pub fn lose(records: &mut Records<'_>, at: Coordinate)
    ensures { held_in records.new ≡ holding (held_in records.old) (without (places_in (held_in records.old)) at (records_in (held_in records.old))) }
{
    if records.add(Line::gone(at)).is_err() {
        move_up(records, at);
    }
}
