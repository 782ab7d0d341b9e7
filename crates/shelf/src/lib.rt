#![tactic(auto)]

// A shelf of prepared starts: each is taken once, and ends in one signature or is thrown away.
mod judges;
mod makes;
mod prepares;
mod shelves;
mod signs;
mod state;
mod takes;
mod throws;

pub use shelves::Shelf;
pub use state::{HandedBack, Inner, Start};
