// The shelf over a tray: its promises, by the records of its log.
ghost use Rattle.std.proofs.Common.{ap, lit<, arith};
ghost use Rattle.std.specs.Prelude.{◌≡◌};
ghost use Rattle.copies.proofs.Records.{ordered_from_records};
ghost use Rattle.rows.specs.Ground.{Ground};
ghost use Rattle.rows.specs.Trays.{blank, memory_of};
ghost use Rattle.rows.proofs.Trays.{within as fits_in};
ghost use Rattle.logs.specs.Lines.{line_form};
ghost use Rattle.logs.specs.Logs.{copies_of, meaning_of};
ghost use Rattle.log_shelves.specs.Trays.{places_in, records_in};
ghost use Rattle.log_shelves.specs.Held.{held_in};
ghost use Rattle.log_shelves.specs.Cells.{Cells, cells_of, edited};
ghost use Rattle.log_shelves.specs.Fits.{kept_fits};

use crate::records::{keep, lose};
use crate::{LARGEST_SHELF, LogShelf};
use copies::{Coordinate, CopyRecord, Entry};
use faults::Fault;
use holders::{Holder, Shelf};
use logs::{find_in, next_in};
use rows::Tray;

impl<'a> LogShelf<'a> {
    // A shelf with no copy, of as many records as the memory has 18 bytes, at most 4,096. Writes zeros there.
    pub fn make(memory: &'a mut [u8]) -> LogShelf<'a>
        ensures { held_in result.tray ≡ blank 18 4096 memory.entry.ghost_name memory.old }
    {
        LogShelf {
            tray: Tray::make(memory),
            kept: 0,
        }
    }

    // Hands the memory back: the records in order, zeros up to the last whole one, and what lies beyond.
    pub fn into_memory(self) -> &'a mut [u8]
        ensures value { result.now ≡ memory_of line_form (held_in self.entry.tray) }
        ensures same { result.ghost_name ≡ (held_in self.entry.tray).ground.place }
    {
        let tray = self.tray;
        tray.into_memory()
    }
}

impl<'a> Holder for LogShelf<'a> {
    const LARGEST: usize = LARGEST_SHELF;

    ghost most = { 4096 };

    ghost room = { λ s. places_in (held_in s.tray) };

    ghost held = { λ s. s.kept };

    ghost Frame = { Ground };

    ghost frame = { λ s. (held_in s.tray).ground };

    fn limit() -> usize
        ensures { result ≡ 4096 }
    {
        LARGEST_SHELF
    }

    fn size(&self) -> usize {
        self.tray.size()
    }

    fn kept(&self) -> usize {
        self.kept
    }

    fn empty(&mut self) {
        self.clear();
    }

    ghost within = { λ s. kept_fits (held_in s.tray) s.kept (fits_in line_form s.tray) s.counted };

    ghost bounded = { λ s. Prim.omega arith };

    ghost sized = { λ s t e. ap (λ g. g.size) e };

    ghost counted = { lit< tt };
}

impl<'a> Shelf for LogShelf<'a> {
    ghost meaning = { λ s. meaning_of (records_in (held_in s.tray)) };

    ghost Cells = { Cells };

    ghost cells = { λ s. cells_of (held_in s.tray) };

    ghost after = { edited };

    fn find(&self, at: Coordinate) -> Option<Entry> {
        find_in(self.tray.in_use(), at)
    }

    fn next(&self, peer: u16, low: u16, high: u16) -> Option<CopyRecord> {
        next_in(self.tray.in_use(), peer, low, high)
    }

    fn put(&mut self, at: Coordinate, entry: Entry) -> Result<(), Fault> {
        if self.find(at).is_some() {
            keep(&mut self.tray, at, entry);
            return Ok(());
        }
        if self.kept >= self.size() {
            return Err(Fault::ShelfFull(0));
        }
        keep(&mut self.tray, at, entry);
        self.kept += 1;
        Ok(())
    }

    fn take(&mut self, at: Coordinate) -> Option<Entry> {
        let entry = self.find(at)?;
        lose(&mut self.tray, at);
        self.kept -= 1;
        Some(entry)
    }

    fn clear(&mut self) {
        self.tray.clear();
        self.kept = 0;
    }

    ghost counted = { λ s. s.counted };

    ghost ordered = { λ s. ordered_from_records (copies_of (records_in (held_in s.tray))) };
}
