ghost use Rattle.std.specs.Prelude.{◌≡◌, ℕ, ◌+◌, ◌^◌, ◌<◌, ◌≤◌, Some};
ghost use Rattle.shelf.specs.Sound.{handed};

use super::state::Inner;

// A shelf of prepared starts over one field, which it holds for its whole life.
// Keys, strips and workspaces are lent to each call as slices of their own, as a caller in C lends them.
#[derive(Drop)]
pub struct Shelf<F> {
    pub(crate) field: F,
    pub(crate) inner: Inner,
    ghost few: { inner.places ≤ 16 },
    ghost bound: { inner.life < 2 ^ 32 },
    ghost some: { (0 < inner.life → 0 < inner.places) },
    ghost lives: { inner.prepared ≤ inner.life },
    ghost order: { inner.taken ≤ inner.prepared },
    ghost sums: { inner.signed + inner.thrown + handed inner.hand ≡ inner.taken },
    ghost held: { ((k : ℕ) → inner.hand ≡ Some k → (1 ≤ k) × (k ≤ inner.taken)) },
}
