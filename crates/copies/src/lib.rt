// The words of a shelf: coordinates, what stands at them, and how a shelf is changed.
#![tactic(auto)]

ghost use Rattle.std.specs.Prelude.{◌≡◌};
ghost use Rattle.copies.specs.Copies.{same as one_coordinate, before as comes_before, in_range, nearer};
ghost use Rattle.copies.specs.Facts.{FindFacts, NextFacts, RecordsFacts};

// Where a copy stands: the peer that holds it, the replica's number and the replica's place.
#[derive(Clone, Copy, PartialEq, Eq, PartialOrd, Ord, Default, Debug)]
pub struct Coordinate {
    pub peer: u16,
    pub place: u16,
    pub replica: u8,
}

// What stands at a coordinate: the number of the insert that wrote it, and the value.
#[derive(Clone, Copy, PartialEq, Eq, Default, Debug)]
pub struct Entry {
    pub stamp: u32,
    pub value: u64,
}

// A copy: a coordinate with what it maps to.
#[derive(Clone, Copy, PartialEq, Eq, Default, Debug)]
pub struct CopyRecord {
    pub at: Coordinate,
    pub held: Entry,
}

// One change of a shelf.
#[derive(Clone, Copy, PartialEq, Eq, Debug)]
pub enum Edit {
    Put(Coordinate, Entry),
    Take(Coordinate),
    Empty,
}

impl Coordinate {
    // `==`, by the name that contracts give it.
    #[tactic(auto, unfolding(crate::specs::Copies::same))]
    pub fn same(self, other: Coordinate) -> bool
        ensures { result ≡ one_coordinate self other }
    {
        self == other
    }

    // `<`: by peer, then place, then replica.
    #[tactic(auto, unfolding(crate::specs::Copies::before))]
    pub fn before(self, other: Coordinate) -> bool
        ensures { result ≡ comes_before self other }
    {
        self < other
    }
}

impl CopyRecord {
    // Whether it is a copy of `peer` with `low` ≤ place ≤ `high`.
    #[tactic(auto, unfolding(crate::specs::Copies::in_range))]
    pub fn in_range(self, peer: u16, low: u16, high: u16) -> bool
        ensures { result ≡ in_range peer low high self }
    {
        self.at.peer == peer && (low..=high).contains(&self.at.place)
    }

    // Of it and the best so far, the one that comes first.
    pub fn nearer(self, best: Option<CopyRecord>) -> Option<CopyRecord>
        ensures { result ≡ nearer self best }
    {
        match best {
            Some(other) if other.at.before(self.at) => best,
            _ => Some(self),
        }
    }
}

// The facts about what a shelf holds, for the check to ask for their proofs.
fn facts_stand()
    ensures find { FindFacts }
    ensures next { NextFacts }
    ensures records { RecordsFacts }
{}
