ghost use Rattle.std.specs.Prelude.{◌≡◌, ℕ, ◌+◌, ◌<◌, ◌≤◌};
ghost use Rattle.algebra.specs.Bits.{two_elements, bit_inverse};
ghost use Rattle.algebra.proofs.BitLaws.{bits_laws, bit_inverse_lem};

use super::rings::{Field, Ring};

// The two-element field, by bits.
#[derive(Clone, Copy)]
pub struct Gf2;

impl Ring for Gf2 {
    ghost ring = { λ _. two_elements };

    ghost laws = { λ x. bits_laws };

    fn size(&self) -> u16 {
        2
    }

    fn sum(&self, a: u8, b: u8) -> u8 {
        if a < 2 && b < 2 { a ^ b } else { 0 }
    }

    fn negative(&self, a: u8) -> u8 {
        if a < 2 { a } else { 0 }
    }

    fn product(&self, a: u8, b: u8) -> u8 {
        if a < 2 && b < 2 { a & b } else { 0 }
    }
}

impl Field for Gf2 {
    ghost inv = { λ _. bit_inverse };

    ghost inverses = { λ x. bit_inverse_lem };

    fn inverse(&self, a: u8) -> Option<u8> {
        if a == 1 { Some(1) } else { None }
    }
}
