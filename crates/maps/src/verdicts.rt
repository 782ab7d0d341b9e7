ghost use Rattle.std.specs.Prelude.{◌≡◌, ℕ, ◌<◌, ◌≤◌, map, length, Decides, slice_index};
ghost use Rattle.fields.specs.Packing.{code_at};
ghost use Rattle.keys.specs.Refusals.{Answers, first};
ghost use Rattle.keys.specs.Seen.{seen};
ghost use Rattle.maps.specs.Verdicts.{Satisfies, verify_buffers, verify_tests, Verdict};

use fields::{Ring, read_code, read_codes};
use keys::{Buffer, Lent, ReadKey, Refusal, refuse_buffers};
use matrices::{evaluate, zeros};

// The buffers of `verify`, in their order.
fn lent<'a, R: Ring>(
    ring: &R,
    key: &ReadKey<'a>,
    digest: &'a [u8],
    signature: &'a [u8],
) -> [Lent<'a>; 3]
    ensures { map (seen (R.Ring.ring ring.now).q) result ≡ verify_buffers (R.Ring.ring ring.now).q key.now.bytes.now digest.now signature.now }
{
    let shape = key.shape();
    [
        key.public_lent(ring),
        Lent::packed_run(ring, Buffer::Digest, digest, 0, shape.equations()),
        Lent::packed_run(ring, Buffer::Signature, signature, 0, shape.variables()),
    ]
}

// The tests of `verify`, in order; the key, read, where they pass.
fn judge<'a, R: Ring>(
    ring: &R,
    key: &'a [u8],
    digest: &[u8],
    signature: &[u8],
) -> Result<ReadKey<'a>, Refusal>
    ensures { Answers (first (verify_tests (R.Ring.ring ring.now).q key.now digest.now signature.now)) result (λ k. k.bytes.now ≡ key.now) }
{
    let key = ReadKey::read(ring, key)?;
    refuse_buffers(ring, &lent(ring, &key, digest, signature))?;
    Ok(key)
}

// Whether the packed codes of a run begin with those of `values`.
// Code by code, since packed codes and bytes have no `==`.
fn begins_with<R: Ring>(ring: &R, run: &[u8], values: &[u8]) -> bool
    ensures { Decides result ((e : ℕ) → e < length values.now → slice_index values.now e ≡ code_at (R.Ring.ring ring.now).q run.now e) }
{
    values
        .iter()
        .enumerate()
        .all(|(e, &value)| value == read_code(ring, run, e))
}

// Whether the m forms whose coefficients are a packed run, at the n codes of a signature, have the codes of a digest as values.
fn satisfies<R: Ring>(
    ring: &R,
    run: &[u8],
    n: usize,
    m: usize,
    digest: &[u8],
    signature: &[u8],
) -> bool
    requires variables { n ≤ 1024 }
    requires equations { m ≤ 1024 }
    ensures { Decides result (Satisfies (R.Ring.ring ring.now) run.now n m digest.now signature.now) }
{
    let mut x = zeros();
    let x = &mut x[0..n];
    read_codes(ring, signature, 0, x);
    let mut values = zeros();
    let values = &mut values[0..m];
    evaluate(ring, run, x, values).unwrap();
    begins_with(ring, digest, values)
}

// Whether every equation of a public key, at the signature, equals the digest's code.
pub fn verify<R: Ring>(
    ring: &R,
    key: &[u8],
    digest: &[u8],
    signature: &[u8],
) -> Result<bool, Refusal>
    ensures { Verdict (R.Ring.ring ring.now) key.now digest.now signature.now result }
{
    let key = judge(ring, key, digest, signature)?;
    let shape = key.shape();
    let (n, m) = (shape.variables(), shape.equations());
    Ok(satisfies(ring, key.run(), n, m, digest, signature))
}
