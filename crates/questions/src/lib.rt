// Questions about where copies belong, for callers outside the library.
#![tactic(auto)]

mod c;
mod holdings;

pub use c::{result_ring_owner, result_ring_place};
pub use holdings::{Holding, where_held};
