#![tactic(auto)]

// Rings and fields of at most 256 codes, their suppliers, and codes in bytes.
mod bits;
mod extension;
mod modular;
mod packing;
mod rings;

pub use bits::Gf2;
pub use extension::{Extensible, Gf4, Gf16, Gf256, QuadraticExtension, gf4, gf16, gf256};
pub use modular::{Mod31, Modulo};
pub use packing::{
    Misfit, first_foreign, packed_len, read_code, read_codes, runs_read_back, write_code,
    write_codes,
};
pub use rings::{Field, Ring};
