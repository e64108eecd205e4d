// Sheets as lines, lines as fields, and fields as tokens that borrow the sheet's bytes.
#![tactic(auto)]

mod cuts;
mod line;
mod lines;
mod tokens;

pub use line::Line;
pub use lines::{Lines, SHEET_LIMIT};
pub use tokens::{Place, Token};
