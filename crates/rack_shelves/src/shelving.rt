// The shelf over a rack: its promises, by the parts of its memory.
ghost use Rattle.std.specs.Prelude.{◌≡◌, length};
ghost use Rattle.std.proofs.Common.{sym, ap, le-add_right, lit<};
ghost use Rattle.copies.specs.declared.CopyRecord.{CopyRecord};
ghost use Rattle.copies.specs.Copies.{from_records};
ghost use Rattle.copies.proofs.Records.{length_from_records, ordered_from_records};
ghost use Rattle.racks.specs.Blanks.{blank_copy};
ghost use Rattle.racks.specs.Parts.{Parts, Ground, size_of, cut, blanks_after, emptied, ground_of};
ghost use Rattle.racks.specs.Racks.{parts_of};
ghost use Rattle.rack_shelves.specs.Cells.{edited};

use crate::searches::{first_in_range, position_of};
use crate::{LARGEST_SHELF, RackShelf};
use copies::{Coordinate, CopyRecord, Entry};
use faults::Fault;
use holders::{Holder, Shelf};
use racks::Rack;

impl<'a> RackShelf<'a> {
    // A shelf with no copy, of at most 4,096 cells. Writes blanks.
    pub fn make(memory: &'a mut [CopyRecord]) -> RackShelf<'a>
        ensures { parts_of result.rack ≡ emptied blank_copy (cut memory.entry.ghost_name memory.old 4096 0) }
    {
        RackShelf {
            rack: Rack::make(memory),
        }
    }

    // Hands the memory back: the copies, blanks up to the size, and what lies beyond.
    pub fn into_memory(self) -> &'a mut [CopyRecord]
        ensures value { result.now ≡ blanks_after blank_copy (parts_of self.entry.rack) }
        ensures same { result.ghost_name ≡ (parts_of self.entry.rack).place }
    {
        let RackShelf { rack, .. } = self;
        rack.into_memory()
    }
}

impl<'a> Holder for RackShelf<'a> {
    const LARGEST: usize = LARGEST_SHELF;

    ghost most = { 4096 };

    ghost room = { λ s. size_of (parts_of s.rack) };

    ghost held = { λ s. length (parts_of s.rack).used };

    ghost Frame = { Ground CopyRecord };

    ghost frame = { λ s. ground_of (parts_of s.rack) };

    fn limit() -> usize
        ensures { result ≡ 4096 }
    {
        LARGEST_SHELF
    }

    fn size(&self) -> usize {
        self.rack.size()
    }

    fn kept(&self) -> usize {
        self.rack.kept()
    }

    fn empty(&mut self) {
        self.clear();
    }

    ghost within = { λ s. le-add_right (length (parts_of s.rack).used) (length (parts_of s.rack).spare) };

    ghost bounded = { λ s. s.rack.sound.bounded };

    ghost counted = { lit< tt };

    ghost sized = { λ s t e. ap (λ g. g.size) e };
}

impl<'a> Shelf for RackShelf<'a> {
    ghost meaning = { λ s. from_records (parts_of s.rack).used };

    ghost Cells = { Parts CopyRecord };

    ghost cells = { λ s. parts_of s.rack };

    ghost after = { edited };

    fn find(&self, at: Coordinate) -> Option<Entry> {
        let copies = self.rack.in_use();
        let place = position_of(copies, at)?;
        Some(copies[place].held)
    }

    fn next(&self, peer: u16, low: u16, high: u16) -> Option<CopyRecord> {
        first_in_range(self.rack.in_use(), peer, low, high)
    }

    fn put(&mut self, at: Coordinate, entry: Entry) -> Result<(), Fault> {
        let copy = CopyRecord { at, held: entry };
        match position_of(self.rack.in_use(), at) {
            Some(place) => {
                self.rack.overwrite(place, copy);
                Ok(())
            }
            None => self.rack.add(copy).map_err(|_| Fault::ShelfFull(0)),
        }
    }

    fn take(&mut self, at: Coordinate) -> Option<Entry> {
        let place = position_of(self.rack.in_use(), at)?;
        self.rack.remove(place).map(|copy| copy.held)
    }

    fn clear(&mut self) {
        self.rack.clear();
    }

    ghost counted = { λ s. sym (length_from_records (parts_of s.rack).used s.apart) };

    ghost ordered = { λ s. ordered_from_records (parts_of s.rack).used };
}
