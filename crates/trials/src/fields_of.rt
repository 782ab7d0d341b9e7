ghost use Rattle.std.specs.Prelude.{◌≡◌, ℕ, ◌+◌, ◌<◌, ◌≤◌, if◌then◌else◌, Some, None, nat_lt, refl};
ghost use Rattle.std.proofs.Common.{sym, subst, lit≤, lit<};
ghost use Rattle.algebra.specs.Modular.{modular};
ghost use Rattle.algebra.proofs.ModularLaws.{modular_laws};
ghost use Rattle.trials.specs.Mod3FieldLemmas.{own, no_code, a_code, squared};
ghost use Rattle.algebra.proofs.Rootless;

use fields::{Extensible, Field, Modulo, QuadraticExtension, Ring, gf4, gf16, gf256};

// The integers modulo 3 as a ring.
fn modulo_3() -> Modulo
    ensures { result.q ≡ 3 }
{
    Modulo::new(3).unwrap()
}

// The integers modulo 3, a field in which t * t = t + 1 has no root.
#[derive(Clone, Copy)]
struct Mod3;

impl Ring for Mod3 {
    ghost ring = { λ _. modular 3 };

    ghost laws = { λ x. modular_laws 3 (lit≤ tt) (lit≤ tt) };

    fn size(&self) -> u16 {
        3
    }

    fn sum(&self, a: u8, b: u8) -> u8 {
        modulo_3().sum(a, b)
    }

    fn negative(&self, a: u8) -> u8 {
        modulo_3().negative(a)
    }

    fn product(&self, a: u8, b: u8) -> u8 {
        modulo_3().product(a, b)
    }
}

impl Field for Mod3 {
    ghost inv = { λ _ a. (if nat_lt 0 a then (if nat_lt a 3 then Some a else None) else None) };

    ghost inverses = { λ x a.
        record {
          none_zero = λ e. subst (λ (t : ℕ). own t ≡ None) (sym e) refl;
          none_foreign = no_code a;
          some = λ ne h. (a, a_code a ne h, h, squared a ne h);
        } };

    fn inverse(&self, a: u8) -> Option<u8> {
        if a > 0 && a < 3 { Some(a) } else { None }
    }
}

impl Extensible for Mod3 {
    ghost constant_of = { λ _. 1 };

    ghost extends = { λ x. Rootless.extends (modular 3) 1 (lit≤ tt) (lit< tt) refl };

    fn constant(&self) -> u8 {
        1
    }
}

#[test]
fn four_codes(rt: HostRuntime) {
    assert_eq!(rt; gf4().product(2, 2), 3);
}

#[test]
fn sixteen_codes(rt: HostRuntime) {
    assert_eq!(rt; gf16().product(4, 4), 6);
    assert_eq!(rt; gf16().product(8, 8), 13);
    assert_eq!(rt; gf16().inverse(4), Some(15));
}

#[test]
fn all_bytes(rt: HostRuntime) {
    assert_eq!(rt; gf256().product(16, 16), 24);
    assert_eq!(rt; gf256().inverse(16), Some(170));
}

// (2 + e) (1 + 2 e) = 2 + 5 e + 2 e e = 4 + 7 e = 1 + e, and e (2 + e) = 3 e + 1 = 1.
#[test]
fn nine_codes(rt: HostRuntime) {
    let field = QuadraticExtension { base: Mod3 };
    assert_eq!(rt; field.product(5, 7), 4);
    assert_eq!(rt; field.inverse(3), Some(5));
}
