// What the lines of a sheet say: the settings, the columns, and the orders.
#![tactic(auto)]

mod columns;
mod heads;
mod orders;

pub use columns::{Columns, read_columns};
pub use heads::{read_names, read_numbers};
pub use orders::{Verb, read_order};
