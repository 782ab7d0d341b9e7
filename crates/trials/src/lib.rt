#![tactic(auto)]

// Worked cases of the fields, of linear systems and of signatures, as tests.
#[cfg(test)]
mod fields_of;
#[cfg(test)]
mod signatures_of;
#[cfg(test)]
mod systems_of;
