#![tactic(auto)]

// What keys compute: the public key of a secret key, and the verdict on a signature.
mod blocks;
mod central;
mod central_rows;
mod compositions;
mod forms_put;
mod mask_backs;
mod masks;
mod public_keys;
mod public_runs;
mod secrets;
mod squares;
mod verdicts;
mod worked;

pub use central::{group_size, group_start};
pub use compositions::{composition_stands, verdict_stands};
pub use keys::{Buffer, Head, Refusal, Set, Shape, named, read_head};
pub use mask_backs::{Mask, masks_undone};
pub use public_keys::public_key;
pub use secrets::{SecretKey, SecretRun};
pub use verdicts::verify;
pub use worked::worked_cases;
