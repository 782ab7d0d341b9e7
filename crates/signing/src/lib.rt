#![tactic(auto)]

// Layer systems, and what a signature is: the start of a vinegar, its end in a signature, and the laws of both, apart from any shelf.
mod finishes;
mod laws;
mod layers;
mod starts;
mod worked;

pub use finishes::finish;
pub use laws::{each_verifies, exactly_one, fixed, no_other, same_start, starts_are_good};
pub use layers::Layer;
pub use starts::start;
pub use worked::signed_cases;
