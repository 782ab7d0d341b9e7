ghost use Rattle.std.specs.Prelude.{◌≡◌, ℕ, min, length, slice_index};
ghost use Rattle.algebra.specs.Sums.{dot_of};

use fields::Ring;

// The sum of the products of the codes at the same place, as far as both rows reach.
pub fn dot<R: Ring>(ring: &R, a: &[u8], b: &[u8]) -> u8
    ensures { result ≡ dot_of (R.Ring.ring ring.now) (min (length a.now) (length b.now)) (λ i. slice_index a.now i) (λ i. slice_index b.now i) }
{
    let mut s = 0;
    for (&x, &y) in a.iter().zip(b) {
        s = ring.sum(s, ring.product(x, y));
    }
    s
}
