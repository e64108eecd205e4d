// What shelves and posts promise, for every implementation.
#![tactic(auto)]

mod holder;
mod post;
mod shelf;
mod uses;

pub use holder::{Holder, has_room_for, room_left};
pub use post::Post;
pub use shelf::Shelf;
pub use uses::{empty_then_find, empty_then_look, put_then_find, put_then_look, take_then_find};
