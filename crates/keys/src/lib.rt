#![tactic(auto)]

// Rainbow keys: their shapes, lengths and heads, the named sets, the refusals, and what a call does first and last.
mod faults;
mod heads;
mod lent;
mod listed;
mod numbers;
mod read_keys;
mod refusals;
mod sets;
mod shapes;
mod sizes;
mod wipes;

pub use faults::LayerFault;
pub use heads::{Head, read_head};
pub use lent::{Codes, Lent, refuse_buffers, refuse_codes, refuse_first, refuse_lengths};
pub use listed::Listed;
pub use read_keys::ReadKey;
pub use refusals::{Buffer, Refusal};
pub use sets::{Set, named};
pub use shapes::Shape;
pub use sizes::pairs;
pub use wipes::Wipe;
