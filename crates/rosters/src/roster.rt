// A collection of at most 64 entries in order of arrival.
ghost use Rattle.std.specs.Prelude.{◌≡◌, ◌≤◌, length};

use crate::keyed::Keyed;

// The most entries that a roster holds.
pub const MOST_ENTRIES: usize = 64;

// The first `count` entries are in use. (The kit's `ArrayVec` makes its unused places, and needs a default for that.)
#[derive(Drop)]
pub struct Roster<T> {
    entries: [T; MOST_ENTRIES],
    count: usize,
    ghost long: { length entries ≡ 64 },
    ghost within: { count ≤ 64 },
}

impl<T: Keyed + Copy> Roster<T> {
    ghost use Rattle.std.specs.Prelude.{[], ◌∷◌, ◌++◌, Ok, Err, if◌then◌else◌, nat_le};
    ghost use Rattle.rosters.specs.Rows.{first_with, replaced_with, dropped_with};
    ghost use Rattle.rosters.specs.Rosters.{listed, most_entries};

    // An empty one. `filler` stands where no entry is, and is never seen.
    pub fn new(filler: T) -> Roster<T>
        ensures { listed result ≡ [] }
    {
        Roster {
            entries: [filler; MOST_ENTRIES],
            count: 0,
        }
    }

    pub fn len(&self) -> usize
        ensures { result ≡ length (listed self.now) }
    {
        self.entries().len()
    }

    pub fn is_full(&self) -> bool
        ensures { result ≡ nat_le most_entries (length (listed self.now)) }
    {
        self.len() >= MOST_ENTRIES
    }

    pub fn entries(&self) -> &[T]
        ensures { result.now ≡ listed self.now }
    {
        &self.entries[..self.count]
    }

    // The first entry with a key.
    pub fn first(&self, wanted: u64) -> Option<T>
        ensures { result ≡ first_with T.Keyed.keyed wanted (listed self.now) }
    {
        self.entries()
            .iter()
            .find(|entry| entry.key() == wanted)
            .copied()
    }

    // One more entry at the end; a full roster hands it back.
    pub fn push(&mut self, entry: T) -> Result<(), T>
        ensures value { result ≡ (if nat_le most_entries (length (listed self.old)) then Err entry else Ok tt) }
        ensures after { listed self.new ≡ (if nat_le most_entries (length (listed self.old)) then listed self.old else listed self.old ++ entry ∷ []) }
    {
        if self.count >= MOST_ENTRIES {
            return Err(entry);
        }
        self.entries[self.count] = entry;
        self.count += 1;
        Ok(())
    }

    // Every entry with a key becomes `value`.
    pub fn replace(&mut self, wanted: u64, value: T)
        ensures { listed self.new ≡ replaced_with T.Keyed.keyed wanted value (listed self.old) }
    {
        for entry in self.entries[..self.count].iter_mut() {
            if entry.key() == wanted {
                *entry = value;
            }
        }
    }

    // Every entry with a key goes; the others keep their order.
    pub fn remove(&mut self, wanted: u64)
        ensures { listed self.new ≡ dropped_with T.Keyed.keyed wanted (listed self.old) }
    {
        let mut front = 0;
        for i in 0..self.count {
            let entry = self.entries[i];
            if entry.key() != wanted {
                self.entries[front] = entry;
                front += 1;
            }
        }
        self.count = front;
    }
}
