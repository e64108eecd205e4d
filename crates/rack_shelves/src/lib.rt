// A shelf in memory that is handed in: the copies in the order in which they came, then blanks.
#![tactic(auto)]

ghost use Rattle.std.specs.Prelude.{◌≡◌, true};
ghost use Rattle.copies.specs.Copies.{apart};
ghost use Rattle.racks.specs.Racks.{parts_of};

mod searches;
mod shelving;

use copies::CopyRecord;
use racks::Rack;

const LARGEST_SHELF: usize = 4096;

// A shelf of at most 4,096 copies.
#[derive(Drop)]
pub struct RackShelf<'a> {
    rack: Rack<'a, CopyRecord, LARGEST_SHELF>,
    ghost apart: { apart (parts_of rack).used ≡ true },
}
