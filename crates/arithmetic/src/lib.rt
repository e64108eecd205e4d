// The ring's arithmetic: settings, distances, arcs, places, and who owns what.
#![tactic(auto)]

mod identifiers;
mod owners;
mod settings;

pub use settings::{MOST_COPIES, Settings};
