// A rack as a list of records: what each call makes of its memory.
ghost use Rattle.std.specs.Prelude.{◌≡◌, min, if◌then◌else◌, Ok, Err};
ghost use Rattle.std.specs.List.{slice_get};
ghost use Rattle.racks.specs.Parts.{cut, joined_up, blanks_after, full, added, overwritten, closed_up, emptied};
ghost use Rattle.racks.specs.Racks.{parts_of};

use crate::{Blank, Rack};
use holders::Holder;
use slices::{close_up, fill};

impl<'a, T: Blank + Copy, const MOST: usize> Rack<'a, T, MOST> {
    // A rack with no record. Writes blanks everywhere within the size.
    pub fn make(memory: &'a mut [T]) -> Rack<'a, T, MOST>
        ensures { parts_of result ≡ emptied T.Blank.nothing (cut memory.entry.ghost_name memory.old MOST 0) }
    {
        Rack::make_within(memory, MOST)
    }

    // The same, of at most `largest` records where that is less than `MOST`.
    pub fn make_within(memory: &'a mut [T], largest: usize) -> Rack<'a, T, MOST>
        ensures { parts_of result ≡ emptied T.Blank.nothing (cut memory.entry.ghost_name memory.old (min largest MOST) 0) }
    {
        let largest = largest.min(MOST);
        let size = memory.len().min(largest);
        fill(memory, 0, size, T::blank());
        Rack {
            records: memory,
            largest,
            count: 0,
        }
    }

    pub fn in_use(&self) -> &[T]
        ensures { result.now ≡ (parts_of self.now).used }
    {
        let records = &*self.records;
        &records[..self.count]
    }

    // The record at position `n`, from 0.
    pub fn get(&self, n: usize) -> Option<T>
        ensures { result ≡ slice_get (parts_of self.now).used n }
    {
        self.in_use().get(n).copied()
    }

    // Adds a record at the end, or hands it back where the rack is full.
    pub fn add(&mut self, item: T) -> Result<(), T>
        ensures value { result ≡ (if full (parts_of self.old) then Err item else Ok tt) }
        ensures after { parts_of self.new ≡ added (parts_of self.old) item }
    {
        if self.count < self.size() {
            self.records[self.count] = item;
            self.count += 1;
            Ok(())
        } else {
            Err(item)
        }
    }

    // Writes over the record at position `n`, if there is one.
    pub fn overwrite(&mut self, n: usize, item: T)
        ensures { parts_of self.new ≡ overwritten (parts_of self.old) n item }
    {
        if n < self.count {
            self.records[n] = item;
        }
    }

    // Takes the record at position `n` out; the later ones move down.
    pub fn remove(&mut self, n: usize) -> Option<T>
        ensures value { result ≡ slice_get (parts_of self.old).used n }
        ensures after { parts_of self.new ≡ closed_up T.Blank.nothing (parts_of self.old) n }
    {
        let item = self.get(n)?;
        close_up(self.records, n, 1, self.count, T::blank());
        self.count -= 1;
        Some(item)
    }

    // Takes every record out. Writes blanks everywhere within the size.
    pub fn clear(&mut self)
        ensures { parts_of self.new ≡ emptied T.Blank.nothing (parts_of self.old) }
    {
        let size = self.size();
        fill(self.records, 0, size, T::blank());
        self.count = 0;
    }

    // Hands the memory back: the records in use, blanks up to the size, and what lies beyond.
    pub fn into_memory(self) -> &'a mut [T]
        ensures value { result.now ≡ blanks_after T.Blank.nothing (parts_of self.entry) }
        ensures whole { result.now ≡ joined_up (parts_of self.entry) }
        ensures same { result.ghost_name ≡ (parts_of self.entry).place }
    {
        let Rack { records, .. } = self;
        records
    }
}
