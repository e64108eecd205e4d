// Settings from any numbers, and what follows from them alone: distances, arcs and places.
ghost use Rattle.std.specs.Prelude.{◌≡◌, ◌/◌, List, [], ◌∷◌};
ghost use Rattle.faults.specs.Checks.{answered, first_fault};
ghost use Rattle.circle.specs.Circle.{distance, in_arc, place};
ghost use Rattle.arithmetic.specs.Settled.{MadeOf};
ghost use Rattle.arithmetic.specs.Checks.{identifier_check, replica_check, place_row, places_of};

use crate::settings::{LARGEST_SIZE, MOST_COPIES, Settings};
use faults::Fault;
use std::array;

impl Settings {
    // Settings of these two numbers, whatever they are.
    pub fn new(size: u64, copies: u64) -> Result<Settings, Fault>
        ensures { MadeOf size copies result }
    {
        if size == 0 || size > LARGEST_SIZE {
            return Err(Fault::Size);
        }
        if copies == 0 || copies > MOST_COPIES as u64 || size % copies != 0 {
            return Err(Fault::Copies);
        }
        Ok(Settings {
            size: size as u32,
            copies: copies as u8,
        })
    }

    pub fn size(self) -> u32
        ensures { result ≡ self.size }
    {
        self.size
    }

    pub fn copies(self) -> u8
        ensures { result ≡ self.copies }
    {
        self.copies
    }

    // A number as an identifier of this ring. (It is tested before the cast: a size of 65,536 is beyond any u16.)
    pub fn identifier(self, number: u64) -> Result<u16, Fault>
        ensures { result ≡ answered (identifier_check self.size number ∷ []) number }
    {
        if number >= self.size as u64 {
            return Err(Fault::Identifier);
        }
        Ok(number as u16)
    }

    // A number as a replica, which counts from 1.
    pub fn replica(self, number: u64) -> Result<u8, Fault>
        ensures { result ≡ answered (replica_check self.copies number ∷ []) number }
    {
        if number == 0 || number > self.copies as u64 {
            return Err(Fault::Replica);
        }
        Ok(number as u8)
    }

    // How far it is from one identifier to another, clockwise.
    #[tactic(auto, using(std::proofs::lemmas::Bool::Decides::nat_tests), unfolding(circle::specs::Circle::distance))]
    pub fn distance(self, from: u16, to: u16) -> u32
        ensures { result ≡ distance self.size from to }
    {
        if from <= to {
            (to - from) as u32
        } else {
            (to as u32 + self.size).saturating_sub(from as u32)
        }
    }

    // Whether an identifier lies after `start`, and not after `end`.
    #[tactic(auto, using(std::proofs::lemmas::Bool::Decides::nat_tests), unfolding(circle::specs::Circle::in_arc))]
    pub fn in_arc(self, start: u16, end: u16, identifier: u16) -> bool
        ensures { result ≡ in_arc self.size start end identifier }
    {
        let far = self.distance(start, identifier);
        0 < far && far <= self.distance(start, end)
    }

    // The place of an item for a replica, counted from 1: copies stand evenly spaced.
    #[tactic(auto, unfolding(circle::specs::Circle::place))]
    pub fn place_of(self, item: u16, replica: u8) -> u16
        ensures { result ≡ place self.size self.copies item replica }
    {
        let steps = replica.saturating_sub(1) as u32;
        let spacing = self.size / self.copies as u32;
        ((item as u32 + steps * spacing) % self.size) as u16
    }

    // The same for any two numbers.
    pub fn place(self, item: u64, replica: u64) -> Result<u16, Fault>
        ensures { result ≡ answered (identifier_check self.size item ∷ (replica_check self.copies replica ∷ [])) (place self.size self.copies item replica) }
    {
        let item = self.identifier(item)?;
        let replica = self.replica(replica)?;
        Ok(self.place_of(item, replica))
    }

    // An item's places, replica 1 first, and 0 beyond the last.
    pub fn row_of(self, item: u16) -> [u16; MOST_COPIES]
        ensures { result ≡ place_row self.size self.copies item }
    {
        array::from_fn(|i| {
            if i < self.copies as usize {
                self.place_of(item, i as u8 + 1)
            } else {
                0
            }
        })
    }

    // An item's places for any number. The rules want eight zeros beside the fault of what is no item, so the two are not one `Result`.
    #[tactic(auto, unfolding(crate::specs::Checks::places_of))]
    pub fn places(self, item: u64) -> ([u16; MOST_COPIES], Option<Fault>)
        ensures row { result.0 ≡ places_of self.size self.copies item }
        ensures fault { result.1 ≡ first_fault (identifier_check self.size item ∷ []) }
    {
        match self.identifier(item) {
            Err(fault) => ([0; MOST_COPIES], Some(fault)),
            Ok(item) => (self.row_of(item), None),
        }
    }
}
