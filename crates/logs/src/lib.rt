// A log of records in bytes: the last record of a coordinate decides.
#![tactic(auto)]

mod compaction;
mod lines;
mod reads;
mod searches;

pub use compaction::compact;
pub use lines::{Line, WIDTH, line_bytes};
pub use reads::records;
pub use searches::{find_in, next_in};
