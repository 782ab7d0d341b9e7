ghost use Rattle.std.specs.Prelude.{◌≡◌, ℕ, ◌+◌, ◌*◌, ◌/◌, ◌%◌, ◌<◌, ◌≤◌, MatchOption, refl};
ghost use Rattle.algebra.specs.Extension.{Extends, join, extension, inverse_over};
ghost use Rattle.algebra.proofs.ExtensionLaws.{extension_laws, extension_inverse};
ghost use Rattle.algebra.proofs.TowerLaws.{extends2, extends16};
ghost use Rattle.std.proofs.Common.{lit<, lit≤};
ghost use Rattle.algebra.specs.Tower;
ghost use Rattle.algebra.proofs.Rootless;

use super::bits::Gf2;
use super::rings::{Field, Ring};

// A field of at most 16 codes that has a constant, a code c such that t * t = t + c for no code t.
pub trait Extensible: Field {
    ghost constant_of: { Self → ℕ };

    fn constant(&self) -> u8
        ensures { result ≡ constant_of self.now };

    ghost extends: { (x : Self) → Extends (Self.Ring.ring x) (constant_of x) };
}

// The code low + q * high, which stands for low + high e.
fn joined(q: u16, low: u8, high: u8) -> u8
    requires { (q ≤ 16) × ((low < q) × (high < q)) }
    ensures { result ≡ join q low high }
{
    low + q as u8 * high
}

// The low and the high part of a code of the extension, None for what is no code.
fn parts(q: u16, a: u8) -> Option<(u8, u8)>
    requires { (2 ≤ q) × (q ≤ 16) }
    ensures { MatchOption result (q * q ≤ a) (λ p. (a < q * q) × (p.0 ≡ a % q) × (p.1 ≡ a / q)) }
{
    if (a as u16) < q * q {
        Some((a % q as u8, a / q as u8))
    } else {
        None
    }
}

// The quadratic extension of a field of q codes: the code low + q * high stands for low + high e, where e e = e + c.
#[derive(Clone, Copy)]
pub struct QuadraticExtension<F> {
    pub base: F,
}

impl<F: Extensible> Ring for QuadraticExtension<F> {
    ghost ring = { λ d. extension (F.Ring.ring d.base) (F.Extensible.constant_of d.base) };

    ghost laws = { λ x. extension_laws (F.Ring.ring x.base) (F.Ring.laws x.base) (F.Extensible.constant_of x.base) (F.Extensible.extends x.base) };

    fn size(&self) -> u16 {
        let q = self.base.size();
        q * q
    }

    fn sum(&self, a: u8, b: u8) -> u8 {
        let f = &self.base;
        let q = f.size();
        let Some((l, h)) = parts(q, a) else { return 0 };
        let Some((m, k)) = parts(q, b) else { return 0 };
        joined(q, f.sum(l, m), f.sum(h, k))
    }

    fn negative(&self, a: u8) -> u8 {
        let f = &self.base;
        let q = f.size();
        let Some((l, h)) = parts(q, a) else { return 0 };
        joined(q, f.negative(l), f.negative(h))
    }

    fn product(&self, a: u8, b: u8) -> u8 {
        let f = &self.base;
        let q = f.size();
        let Some((l, h)) = parts(q, a) else { return 0 };
        let Some((m, k)) = parts(q, b) else { return 0 };
        let hk = f.product(h, k);
        let low = f.sum(f.product(l, m), f.product(f.constant(), hk));
        let high = f.sum(f.sum(f.product(l, k), f.product(h, m)), hk);
        joined(q, low, high)
    }
}

impl<F: Extensible> Field for QuadraticExtension<F> {
    ghost inv = { λ d. inverse_over (F.Ring.ring d.base) (F.Field.inv d.base) (F.Extensible.constant_of d.base) };

    ghost inverses = { λ x.
        extension_inverse (F.Ring.ring x.base) (F.Ring.laws x.base) (F.Extensible.constant_of x.base) (F.Extensible.extends x.base)
        (F.Field.inv x.base) (F.Field.inverses x.base) };

    fn inverse(&self, a: u8) -> Option<u8> {
        let f = &self.base;
        let q = f.size();
        let (l, h) = parts(q, a)?;
        let square = f.product(f.constant(), f.product(h, h));
        let norm = f.sum(f.sum(f.product(l, l), f.product(l, h)), f.negative(square));
        let n = f.inverse(norm)?;
        Some(joined(q, f.product(f.sum(l, h), n), f.product(f.negative(h), n)))
    }
}

impl Extensible for Gf2 {
    ghost constant_of = { λ _. 1 };

    ghost extends = { λ x. extends2 };

    fn constant(&self) -> u8 {
        1
    }
}

// The field of 4 codes.
pub type Gf4 = QuadraticExtension<Gf2>;

impl Extensible for Gf4 {
    ghost constant_of = { λ _. 2 };

    ghost extends = { λ x. Rootless.extends Tower.gf4 _ (lit≤ tt) (lit< tt) refl };

    fn constant(&self) -> u8 {
        2
    }
}

// The field of 16 codes.
pub type Gf16 = QuadraticExtension<Gf4>;

impl Extensible for Gf16 {
    ghost constant_of = { λ _. 8 };

    ghost extends = { λ x. extends16 };

    fn constant(&self) -> u8 {
        8
    }
}

// The field of 256 codes.
pub type Gf256 = QuadraticExtension<Gf16>;

pub fn gf4() -> Gf4
    ensures { result ≡ record { base = record {} } }
{
    QuadraticExtension { base: Gf2 }
}

pub fn gf16() -> Gf16
    ensures { result ≡ record { base = record { base = record {} } } }
{
    QuadraticExtension { base: gf4() }
}

pub fn gf256() -> Gf256
    ensures { result ≡ record { base = record { base = record { base = record {} } } } }
{
    QuadraticExtension { base: gf16() }
}
