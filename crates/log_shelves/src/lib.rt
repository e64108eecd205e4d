// A shelf in bytes that are handed in: a log of records, 18 bytes each, then zeros.
#![tactic(auto)]

ghost use Rattle.std.specs.Prelude.{◌≡◌, length};
ghost use Rattle.logs.specs.Logs.{meaning_of};
ghost use Rattle.log_shelves.specs.Trays.{records_in};
ghost use Rattle.log_shelves.specs.Held.{held_in};

mod forms;
mod records;
mod shelving;

use records::Records;

const LARGEST_SHELF: usize = 4096;

// `kept` counts the coordinates that map to something, since counting them anew reads the log many times.
#[derive(Drop)]
pub struct LogShelf<'a> {
    tray: Records<'a>,
    kept: usize,
    ghost counted: { kept ≡ length (meaning_of (records_in (held_in tray))) },
}
