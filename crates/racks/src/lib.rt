// A list of records in memory that is handed in. Places not in use hold the blank.
#![tactic(auto)]

ghost use Rattle.std.specs.Prelude.{◌≤◌};
ghost use Rattle.racks.specs.Laws.{RackFacts};
ghost use Rattle.racks.specs.Parts.{Sound, cut};

mod blanks;
mod holding;
mod lists;

pub use blanks::Blank;

// The first `count` records are in use. The rack's size is the number of records, at most `largest`.
#[derive(Drop)]
pub struct Rack<'a, T: Blank + Copy, const MOST: usize> {
    records: &'a mut [T],
    largest: usize,
    count: usize,
    ghost limited: { largest ≤ MOST },
    ghost sound: { Sound T.Blank.nothing MOST count (cut records.ghost_name records.now largest count) },
}

// What every call keeps, for the check to ask for the proofs.
fn facts_stand<T: Blank + Copy>()
    ensures { RackFacts T }
{}
