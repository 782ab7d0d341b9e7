ghost use Rattle.std.specs.Prelude.{◌≡◌, ℕ, ◌+◌, ◌*◌, ◌<◌, ◌≤◌, length, replicate, slice_index};
ghost use Rattle.matrices.specs.QuadraticSystems.{pairs_before, terms_of, Evaluated};

use fields::{Misfit, Ring, read_codes};

// No system has more variables or more forms than this; it sizes the local row of coefficients.
pub const MOST: usize = 1024;

// A row of zeros, for local use.
// Of a fixed length, since nothing here uses the heap: callers use as much of it as they need.
pub fn zeros() -> [u8; MOST]
    ensures { result ≡ replicate 1024 0 }
{
    [0; MOST]
}

// Adds to each value the terms in x(i) x(j) of its form, for all j from i on; `at` is the place of the first coefficient.
// What `row` holds afterwards is open.
fn add_terms<R: Ring>(
    ring: &R,
    run: &[u8],
    x: &[u8],
    i: usize,
    at: usize,
    row: &mut [u8],
    values: &mut [u8],
)
    requires inside { i < length x.now }
    requires few { (length x.now ≤ 1024) × (length values.old ≤ 1024) }
    requires row_len { length row.old ≡ length values.old }
    requires place { at ≡ pairs_before (length x.now) i * length values.old }
    requires codes { (e : ℕ) → slice_index values.old e < (R.Ring.ring ring.now).q }
    ensures { (e : ℕ) → e < length values.old → slice_index values.new e ≡ (R.Ring.ring ring.now).add (slice_index values.old e) (terms_of (R.Ring.ring ring.now) run.now x.now (length values.old) e i) }
{
    for (k, &y) in x[i..].iter().enumerate() {
        read_codes(ring, run, at + k * row.len(), row);
        ring.add_multiple(values, ring.product(x[i], y), row);
    }
}

// The values at x of the quadratic forms whose coefficients are a packed run, one form for each place of `values`.
// Err, and `values` as they were, where there are more than MOST variables or forms.
pub fn evaluate<R: Ring>(ring: &R, run: &[u8], x: &[u8], values: &mut [u8]) -> Result<(), Misfit>
    ensures { Evaluated (R.Ring.ring ring.now) run.now x.now values.old result values.new }
{
    if x.len() > MOST || values.len() > MOST {
        return Err(Misfit);
    }
    let mut buffer = zeros();
    let row = &mut buffer[0..values.len()];
    values.fill(0);
    // The place of the next coefficient: the sum says it more plainly than its closed form.
    let mut at = 0;
    for i in 0..x.len() {
        add_terms(ring, run, x, i, at, row, values);
        at += (x.len() - i) * values.len();
    }
    Ok(())
}
