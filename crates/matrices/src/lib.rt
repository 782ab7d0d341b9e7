#![tactic(auto)]

// Sums, products, quadratic forms and systems of equations over lent slices of codes.
mod dots;
mod elimination;
mod forms;
mod products;
mod systems;

pub use dots::dot;
pub use elimination::{Dependent, answer_is_fixed, eliminate, fault_is_singular};
pub use forms::{MOST, evaluate, zeros};
pub use products::{apply, fills, multiply, multiply_transposed, read_column};
pub use systems::{invert, invert_left, solve, unit_is_regular};
