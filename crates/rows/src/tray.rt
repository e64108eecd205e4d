// Records of one kind, one after another in bytes that are lent, then zeros.
ghost use Rattle.std.specs.Prelude.{◌≡◌, ◌<◌, ◌≤◌, Some};
ghost use Rattle.rows.specs.Rows.{Form, size_in, Whole};

use holders::Holder;
use slices::{close_up, fill, write};
use std::marker::PhantomData;

// How records of one kind stand in bytes, WIDTH each.
pub trait Layout<const WIDTH: usize> {
    type Item: Copy;

    ghost form: { Form Self.Item WIDTH };

    fn bytes_of(item: Self::Item) -> [u8; WIDTH]
        ensures { result ≡ form.bytes item };

    ghost some: { 0 < WIDTH };
}

// A layout whose records are read one at a time.
pub trait Readable<const WIDTH: usize>: Layout<WIDTH> {
    // The record of these bytes, if they are one's.
    fn read(bytes: &[u8]) -> Option<Self::Item>
        ensures { (r : Self.Item) → bytes.now ≡ Self.form.bytes r → result ≡ Some r };
}

// There is no place left.
#[derive(Clone, Copy, PartialEq, Eq, Debug)]
pub struct Full;

// The first `count` places are in use, of at most MOST. Places not in use hold zeros.
#[derive(Drop)]
pub struct Tray<'a, L: Layout<WIDTH>, const WIDTH: usize, const MOST: usize> {
    pub bytes: &'a mut [u8],
    pub count: usize,
    layout: PhantomData<L>,
    pub ghost tidy: { Whole L.form MOST bytes.now count },
    pub ghost inside: { count ≤ size_in WIDTH MOST bytes.now },
}

impl<'a, L: Layout<WIDTH>, const WIDTH: usize, const MOST: usize> Tray<'a, L, WIDTH, MOST> {
    ghost use Rattle.std.specs.Prelude.{[], map, if◌then◌else◌, Ok, Err};
    ghost use Rattle.rows.specs.declared.tray.Full.{Full};
    ghost use Rattle.rows.specs.Trays.{held_in, blank, holding, is_full, added, memory_of};

    // A tray with no record, of as many places as the memory has. Writes zeros there.
    pub fn make(memory: &'a mut [u8]) -> Tray<'a, L, WIDTH, MOST>
        ensures { held_in L.form result ≡ blank WIDTH MOST memory.entry.ghost_name memory.old }
    {
        let end = WIDTH * Self::places(memory);
        fill(memory, 0, end, 0);
        Tray {
            bytes: memory,
            count: 0,
            layout: PhantomData,
        }
    }

    // How many records there is memory for.
    pub(crate) fn places(bytes: &[u8]) -> usize
        ensures { result ≡ size_in WIDTH MOST bytes.now }
    {
        (bytes.len() / WIDTH).min(MOST)
    }

    // Takes every record out. Writes zeros everywhere within the size.
    pub fn clear(&mut self)
        ensures { held_in L.form self.new ≡ holding (held_in L.form self.old) [] }
    {
        let end = WIDTH * self.size();
        fill(self.bytes, 0, end, 0);
        self.count = 0;
    }

    // Adds a record at the end.
    pub fn add(&mut self, item: L::Item) -> Result<(), Full>
        ensures value { result ≡ (if is_full (held_in L.form self.old) then Err (record {}) else Ok tt) }
        ensures after { held_in L.form self.new ≡ added (held_in L.form self.old) item }
    {
        let count = self.count;
        if count >= self.size() {
            return Err(Full);
        }
        write(self.bytes, WIDTH * count, &L::bytes_of(item));
        self.count = count + 1;
        Ok(())
    }

    // The records in use, as they stand.
    pub fn in_use(&self) -> &[[u8; WIDTH]]
        ensures { result.now ≡ map L.form.bytes (held_in L.form self.now).items }
    {
        let (records, _) = self.bytes.as_chunks();
        &records[..self.count]
    }

    // Hands the memory back.
    pub fn into_memory(self) -> &'a mut [u8]
        ensures value { result.now ≡ memory_of L.form (held_in L.form self.entry) }
        ensures same { result.ghost_name ≡ (held_in L.form self.entry).ground.place }
    {
        let bytes = self.bytes;
        bytes
    }
}

impl<'a, L: Readable<WIDTH>, const WIDTH: usize, const MOST: usize> Tray<'a, L, WIDTH, MOST> {
    ghost use Rattle.std.specs.List.{slice_get, remove};
    ghost use Rattle.rows.specs.Trays.{held_in, holding};

    // The record at position `n`, from 0.
    pub fn get(&self, n: usize) -> Option<L::Item>
        ensures { result ≡ slice_get (held_in L.form self.now).items n }
    {
        // Not by `in_use`: its proof closes only where WIDTH is known to be below 2^63, an array's limit.
        if n >= self.count {
            return None;
        }
        let at = WIDTH * n;
        L::read(&self.bytes[at..at + WIDTH])
    }

    // Takes the record at position `n` out; the later ones move down.
    pub fn remove(&mut self, n: usize) -> Option<L::Item>
        ensures value { result ≡ slice_get (held_in L.form self.old).items n }
        ensures after { held_in L.form self.new ≡ holding (held_in L.form self.old) (remove (held_in L.form self.old).items n) }
    {
        let item = self.get(n)?;
        close_up(self.bytes, WIDTH * n, WIDTH, WIDTH * self.count, 0);
        self.count -= 1;
        Some(item)
    }
}
