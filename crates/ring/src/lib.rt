// The ring over any shelf and any post.
#![tactic(auto)]

mod calls;
mod checks;
mod deliveries;
mod items;
mod made;
mod members;
mod ring;

pub use ring::Ring;
