ghost use Rattle.std.specs.Prelude.{◌≡◌, ℕ, ◌+◌, ◌<◌, ◌≤◌, MatchOption};
ghost use Rattle.algebra.specs.Modular.{modular, inverse31};
ghost use Rattle.std.proofs.Common.{lit≤};
ghost use Rattle.std.proofs.Math.Nat.{le_trans};
ghost use Rattle.algebra.proofs.ModularLaws.{modular_laws, inverse31_right};

use super::rings::{Field, Ring};

// The integers modulo q, a ring for every q from 2 to 255.
#[derive(Clone, Copy)]
pub struct Modulo {
    q: u8,
    ghost more: { 2 ≤ q },
    ghost small: { q ≤ 255 },
}

impl Modulo {
    // None exactly where q is below 2.
    pub fn new(q: u8) -> Option<Modulo>
        ensures { MatchOption result (q < 2) (λ m. m.q ≡ q) }
    {
        if q < 2 { None } else { Some(Modulo { q }) }
    }
}

impl Ring for Modulo {
    ghost ring = { λ m. modular m.q };

    ghost laws = { λ x. modular_laws x.q x.more (le_trans x.small (lit≤ tt)) };

    fn size(&self) -> u16 {
        self.q as u16
    }

    fn sum(&self, a: u8, b: u8) -> u8 {
        let q = self.q;
        if a < q && b < q {
            ((a as u16 + b as u16) % q as u16) as u8
        } else {
            0
        }
    }

    fn negative(&self, a: u8) -> u8 {
        let q = self.q;
        if a < q { (q - a) % q } else { 0 }
    }

    fn product(&self, a: u8, b: u8) -> u8 {
        let q = self.q;
        if a < q && b < q {
            (a as u16 * b as u16 % q as u16) as u8
        } else {
            0
        }
    }
}

// The integers modulo 31 as a ring.
fn modulo_31() -> Modulo
    ensures { result.q ≡ 31 }
{
    Modulo { q: 31 }
}

// The integers modulo 31, a field.
#[derive(Clone, Copy)]
pub struct Mod31;

// At each code but 0, its inverse.
const INVERSES: [u8; 31] = [
    0, 1, 16, 21, 8, 25, 26, 9, 4, 7, 28, 17, 13, 12, 20, 29, 2, 11, 19, 18, 14, 3, 24, 27, 22, 5,
    6, 23, 10, 15, 30,
];

impl Ring for Mod31 {
    ghost ring = { λ _. modular 31 };

    ghost laws = { λ x. modular_laws 31 (lit≤ tt) (lit≤ tt) };

    fn size(&self) -> u16 {
        31
    }

    fn sum(&self, a: u8, b: u8) -> u8 {
        modulo_31().sum(a, b)
    }

    fn negative(&self, a: u8) -> u8 {
        modulo_31().negative(a)
    }

    fn product(&self, a: u8, b: u8) -> u8 {
        modulo_31().product(a, b)
    }
}

impl Field for Mod31 {
    ghost inv = { λ _. inverse31 };

    ghost inverses = { λ x. inverse31_right };

    fn inverse(&self, a: u8) -> Option<u8> {
        if a > 0 && a < 31 {
            Some(INVERSES[a as usize])
        } else {
            None
        }
    }
}
