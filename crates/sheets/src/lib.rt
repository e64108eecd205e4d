// Order sheets: lines of text in, an answer line for each order out.
#![tactic(auto)]

mod answers;
mod heads;
mod order_lines;
mod sheets;

pub use heads::{Opening, open};
pub use order_lines::OrderLines;
pub use sheets::answer_sheet;
