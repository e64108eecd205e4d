// A collection of up to 64 entries with keys, in order of arrival.
#![tactic(auto)]

mod keyed;
mod roster;

pub use keyed::Keyed;
pub use roster::Roster;
