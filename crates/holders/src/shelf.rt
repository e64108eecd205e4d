// What a shelf promises.
ghost use Rattle.std.specs.Prelude.{◌≡◌, List, [], length, if◌then◌else◌, Ok, Err};
ghost use Rattle.faults.specs.declared.Fault.TheVariants.{ShelfFull};
ghost use Rattle.copies.specs.declared.CopyRecord.{CopyRecord};
ghost use Rattle.copies.specs.declared.Edit.{Edit};
ghost use Rattle.copies.specs.declared.Edit.TheVariants.{Put, Take, Empty};
ghost use Rattle.copies.specs.Copies.{Ordered, find as found, put as with_copy, remove as without, next as next_of};
ghost use Rattle.holders.specs.Holders.{no_cell};

use crate::Holder;
use copies::{Coordinate, CopyRecord, Entry};
use faults::Fault;

// A shelf maps coordinates to entries. Its meaning is its copies in order.
pub trait Shelf: Holder {
    ghost meaning: { Self → List CopyRecord };

    // what its memory is, and what one edit makes of that
    ghost Cells: { Type 0 };

    ghost cells: { Self → Cells };

    ghost after: { Cells → Edit → Cells };

    // How many copies it has: what `kept` tells.
    fn count(&self) -> usize
        ensures { result ≡ length (meaning self.now) }
    {
        self.kept()
    }

    fn find(&self, at: Coordinate) -> Option<Entry>
        ensures { result ≡ found (meaning self.now) at };

    // The first copy of `peer` with `low` ≤ place ≤ `high`: three numbers, since clauses and definitions take them one by one.
    fn next(&self, peer: u16, low: u16, high: u16) -> Option<CopyRecord>
        ensures { result ≡ next_of (meaning self.now) peer low high };

    fn put(&mut self, at: Coordinate, entry: Entry) -> Result<(), Fault>
        ensures value { result ≡ (if no_cell (meaning self.old) (Self.Holder.room self.old) at then Err (ShelfFull 0) else Ok tt) }
        ensures after { meaning self.new ≡ (if no_cell (meaning self.old) (Self.Holder.room self.old) at then meaning self.old else with_copy (meaning self.old) at entry) }
        ensures cells { cells self.new ≡ (if no_cell (meaning self.old) (Self.Holder.room self.old) at then cells self.old else after (cells self.old) (Put at entry)) }
        ensures same { Self.Holder.frame self.new ≡ Self.Holder.frame self.old };

    fn take(&mut self, at: Coordinate) -> Option<Entry>
        ensures value { result ≡ found (meaning self.old) at }
        ensures after { meaning self.new ≡ without (meaning self.old) at }
        ensures cells { cells self.new ≡ after (cells self.old) (Take at) }
        ensures same { Self.Holder.frame self.new ≡ Self.Holder.frame self.old };

    // Empties it, and says what becomes of its memory.
    fn clear(&mut self)
        ensures after { meaning self.new ≡ [] }
        ensures cells { cells self.new ≡ after (cells self.old) Empty }
        ensures same { Self.Holder.frame self.new ≡ Self.Holder.frame self.old };

    // what it keeps is its copies, and these are in order
    ghost counted: { (s : Self) → Self.Holder.held s ≡ length (meaning s) };

    ghost ordered: { (s : Self) → Ordered (meaning s) };
}
