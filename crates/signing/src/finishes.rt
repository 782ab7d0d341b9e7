ghost use Rattle.std.specs.Prelude.{◌≡◌, ℕ, ◌+◌, ◌*◌, ◌<◌, ◌≤◌, length, slice_index};
ghost use Rattle.algebra.specs.Matrices.{applied};
ghost use Rattle.algebra.specs.Layers.{joined};
ghost use Rattle.fields.specs.Packing.{packed_length, code_at};
ghost use Rattle.keys.specs.Shapes.{variables, equations, place_length};
ghost use Rattle.maps.specs.SecretKeys.{inner_inverse};
ghost use Rattle.signing.specs.Starts.{TakenAway, place_vinegar, first_oil, unmixed, SecondRows, SecondAnswered, packed_vector, Closed, Ended};

use super::layers::{Layer, put_column};
use fields::{Field, Ring, packed_len, read_codes, write_codes};
use keys::LayerFault;
use maps::{Mask, SecretKey, SecretRun};
use matrices::{Dependent, apply, read_column, solve, zeros};

// Takes the codes of c from as many places of b, by index: a loop over a `zip` with `iter_mut` does not say what it wrote.
fn take_away<R: Ring>(ring: &R, b: &mut [u8], c: &[u8])
    requires { length c.now ≤ length b.old }
    ensures { TakenAway (R.Ring.ring ring.now) c.now b.old b.new (length c.now) }
{
    for (r, &code) in c.iter().enumerate() {
        b[r] = ring.sum(b[r], ring.negative(code));
    }
}

// S inverse times the digest; `space` holds anything afterwards.
fn unmix<R: Ring>(secret: &SecretRun<'_, R>, digest: &[u8], space: &mut [u8], b: &mut [u8])
    requires space { length space.old ≡ equations secret.now.shape }
    requires room { length b.old ≡ equations secret.now.shape }
    ensures { (e : ℕ) → e < equations secret.now.shape → slice_index b.new e ≡ unmixed (R.Ring.ring secret.now.ring.now) secret.now.run.now secret.now.shape (code_at (R.Ring.ring secret.now.ring.now).q digest.now) e }
{
    read_codes(secret.ring, digest, 0, space);
    secret.bring_back(Mask::Outer, space, b).unwrap();
}

// A place's vinegar, and the first layer's variables that its constants and inverse give for b; the first places of b hold anything afterwards.
fn half_point<R: Ring>(secret: &SecretRun<'_, R>, place: &[u8], b: &mut [u8], point: &mut [u8])
    requires place { length place.now ≡ place_length secret.now.shape }
    requires side { length b.old ≡ equations secret.now.shape }
    requires room { length point.old ≡ variables secret.now.shape }
    ensures known { (i : ℕ) → i < secret.now.shape.v1 + secret.now.shape.o1 → slice_index point.new i ≡ joined secret.now.shape.v1 (place_vinegar place.now) (first_oil (R.Ring.ring secret.now.ring.now) secret.now.shape place.now (λ j. slice_index b.old j)) i }
    ensures rest { (r : ℕ) → secret.now.shape.o1 ≤ r → slice_index b.new r ≡ slice_index b.old r }
{
    let ring = secret.ring;
    let (v1, o1) = (secret.shape.v1 as usize, secret.shape.o1 as usize);
    take_away(ring, b, &place[v1..v1 + o1]);
    apply(ring, &place[v1 + o1..], &b[0..o1], &mut point[v1..v1 + o1]).unwrap();
    point[0..v1].copy_from_slice(&place[0..v1]);
}

// Writes the rows of the second layer's system at the point's known values, its right side last; the last places of b hold anything afterwards.
fn second_rows<R: Ring>(key: &SecretKey<'_, R>, point: &[u8], b: &mut [u8], rows: &mut [u8])
    requires point { length point.now ≡ key.now.secret.shape.v1 + key.now.secret.shape.o1 }
    requires side { length b.old ≡ key.now.secret.shape.o2 }
    requires room { length rows.old ≡ key.now.secret.shape.o2 * (key.now.secret.shape.o2 + 1) }
    ensures { SecondRows (R.Ring.ring key.now.secret.ring.now) key.now.secret.run.now key.now.secret.shape (λ r. slice_index b.old r) (λ i. slice_index point.now i) rows.new }
{
    let secret = &key.secret;
    let o2 = secret.shape.o2 as usize;
    let layer = Layer {
        secret,
        number: 2,
        x: point,
    };
    layer.constants(&mut rows[0..o2]).unwrap();
    take_away(secret.ring, b, &rows[0..o2]);
    put_column(rows, o2 + 1, o2, b);
    layer.system(o2 + 1, rows).unwrap();
}

// Solves the second layer behind the point's known values; the last places of b, and `rows`, hold anything afterwards.
fn second_layer<F: Field>(
    key: &SecretKey<'_, F>,
    b: &mut [u8],
    rows: &mut [u8],
    point: &mut [u8],
) -> Result<(), Dependent>
    requires point { length point.old ≡ variables key.now.secret.shape }
    requires side { length b.old ≡ equations key.now.secret.shape }
    requires room { length rows.old ≡ key.now.secret.shape.o2 * (key.now.secret.shape.o2 + 1) }
    ensures { SecondAnswered (F.Ring.ring key.now.secret.ring.now) key.now.secret.run.now key.now.secret.shape (λ r. slice_index b.old r) (λ i. slice_index point.old i) result point.new }
{
    let shape = key.secret.shape;
    let (o1, o2) = (shape.o1 as usize, shape.o2 as usize);
    let known = shape.v1 as usize + o1;
    second_rows(key, &point[0..known], &mut b[o1..], rows);
    solve(key.secret.ring, rows, o2).unwrap()?;
    read_column(rows, o2 + 1, o2, &mut point[known..]);
    Ok(())
}

// Writes T inverse times the point as a packed run.
fn write_signature<R: Ring>(key: &SecretKey<'_, R>, point: &[u8], signature: &mut [u8])
    requires point { length point.now ≡ variables key.now.secret.shape }
    requires room { length signature.old ≡ packed_length (R.Ring.ring key.now.secret.ring.now).q (variables key.now.secret.shape) }
    ensures { signature.new ≡ packed_vector (R.Ring.ring key.now.secret.ring.now).q (variables key.now.secret.shape) (applied (R.Ring.ring key.now.secret.ring.now) (variables key.now.secret.shape) (inner_inverse (R.Ring.ring key.now.secret.ring.now) key.now.secret.run.now key.now.secret.shape) (λ i. slice_index point.now i)) }
{
    let mut buffer = zeros();
    let z = &mut buffer[0..point.len()];
    key.secret.bring_back(Mask::Inner, point, z).unwrap();
    write_codes(key.secret.ring, z, signature).unwrap();
}

// Ends a start in a signature where the lengths fit; what `point`, `b` and `rows` hold afterwards is open.
// `point`, `b` and `rows` are parts of the lent workspace, which are borrowed one by one.
fn close<F: Field>(
    key: &SecretKey<'_, F>,
    place: &[u8],
    digest: &[u8],
    signature: &mut [u8],
    point: &mut [u8],
    b: &mut [u8],
    rows: &mut [u8],
) -> Result<(), LayerFault<2>>
    requires place { length place.now ≡ place_length key.now.secret.shape }
    requires signature { length signature.old ≡ packed_length (F.Ring.ring key.now.secret.ring.now).q (variables key.now.secret.shape) }
    requires point { length point.old ≡ variables key.now.secret.shape }
    requires side { length b.old ≡ equations key.now.secret.shape }
    requires rows { length rows.old ≡ key.now.secret.shape.o2 * (key.now.secret.shape.o2 + 1) }
    ensures { Closed (F.Ring.ring key.now.secret.ring.now) key.now.secret.run.now key.now.secret.shape place.now digest.now signature.old result signature.new }
{
    let secret = &key.secret;
    let m = secret.shape.equations();
    unmix(secret, digest, &mut point[0..m], b);
    half_point(secret, place, b, point);
    second_layer(key, b, rows, point)?;
    write_signature(key, point, signature);
    Ok(())
}

// Ends the start that a place holds: writes the signature of the digest.
// None, and the signature as it was, where a length does not fit; a fault leaves the signature as it was. What the workspace holds afterwards is open.
// The Option is apart from the Result, as in `eliminate`.
pub fn finish<F: Field>(
    secret: &SecretRun<'_, F>,
    place: &[u8],
    digest: &[u8],
    signature: &mut [u8],
    work: &mut [u8],
) -> Option<Result<(), LayerFault<2>>>
    ensures { Ended (F.Ring.ring secret.now.ring.now) secret.now.run.now secret.now.shape place.now digest.now (length work.old) signature.old result signature.new }
{
    let key = secret.key()?;
    let shape = secret.shape;
    let (n, m) = (shape.variables(), shape.equations());
    let q = secret.ring.size();
    if place.len() != shape.place_len() || work.len() < shape.sign_workspace() {
        return None;
    }
    if digest.len() != packed_len(q, m) || signature.len() != packed_len(q, n) {
        return None;
    }
    let o2 = shape.o2 as usize;
    let (point, rest) = work.split_at_mut(n);
    let (b, rest) = rest.split_at_mut(m);
    let rows = &mut rest[0..o2 * (o2 + 1)];
    Some(close(&key, place, digest, signature, point, b, rows))
}
