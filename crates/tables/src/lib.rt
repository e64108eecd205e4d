// The table of peers and the open questions: a roster each, and the clauses say the rules' own words of its list.
#![tactic(auto)]

mod questions;
mod table;

pub use questions::Questions;
pub use table::Table;
