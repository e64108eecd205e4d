// Records of one width in bytes that are lent.
#![tactic(auto)]

mod holding;
mod tray;

pub use tray::{Full, Layout, Readable, Tray};
