ghost use Rattle.std.specs.Prelude.{◌≡◌, ℕ, ◌+◌, ◌<◌, ◌≤◌, Option};
ghost use Rattle.algebra.specs.Rings.{Ring as Meaning, RingLaws, IsInverse};
ghost use Rattle.fields.specs.Rows.{plus_times};

// A ring of q codes, the numbers 0 to q - 1, with q from 2 to 256. Code 0 is its zero, code 1 its one.
// Each operation answers a code, and 0 where an argument is no code.
pub trait Ring {
    ghost ring: { Self → Meaning };

    fn size(&self) -> u16
        ensures { result ≡ (ring self.now).q };

    fn sum(&self, a: u8, b: u8) -> u8
        ensures { result ≡ (ring self.now).add a b };

    fn negative(&self, a: u8) -> u8
        ensures { result ≡ (ring self.now).neg a };

    fn product(&self, a: u8, b: u8) -> u8
        ensures { result ≡ (ring self.now).mul a b };

    // acc += t * row, place by place, as far as both reach.
    // By index into `acc`: a loop over a `zip` with `iter_mut` does not say what it wrote.
    fn add_multiple(&self, acc: &mut [u8], t: u8, row: &[u8])
        ensures { acc.new ≡ plus_times (ring self.now) t acc.old row.now }
    {
        let n = acc.len().min(row.len());
        for (i, &b) in row[..n].iter().enumerate() {
            acc[i] = self.sum(acc[i], self.product(t, b));
        }
    }

    ghost laws: { (x : Self) → RingLaws (ring x) };
}

// A ring in which every code but 0 has an inverse.
pub trait Field: Ring {
    ghost inv: { Self → ℕ → Option ℕ };

    fn inverse(&self, a: u8) -> Option<u8>
        ensures { (result ≡ inv self.now a) × (IsInverse (Self.Ring.ring self.now) a result) };

    ghost inverses: { (x : Self) (a : ℕ) → IsInverse (Self.Ring.ring x) a (inv x a) };
}
