ghost use Rattle.std.specs.Prelude.{◌≡◌, ℕ, ◌+◌, ◌*◌, ◌<◌, length, slice_index};
ghost use Rattle.keys.specs.Shapes.{place_length};
ghost use Rattle.signing.specs.Layers.{system_constant, SystemIn};
ghost use Rattle.signing.specs.Starts.{Opened, Started};

use super::layers::Layer;
use fields::{Field, Ring, packed_len, read_codes};
use keys::LayerFault;
use maps::{SecretKey, SecretRun};
use matrices::invert_left;

// Writes the constants of the first layer at the vinegar x, and its system into the left blocks of rows; the right blocks stay as they are.
fn first_rows<R: Ring>(key: &SecretKey<'_, R>, x: &[u8], constants: &mut [u8], rows: &mut [u8])
    requires x { length x.now ≡ key.now.secret.shape.v1 }
    requires constants { length constants.old ≡ key.now.secret.shape.o1 }
    requires rows { length rows.old ≡ key.now.secret.shape.o1 * (key.now.secret.shape.o1 + key.now.secret.shape.o1) }
    ensures constants { (r : ℕ) → r < key.now.secret.shape.o1 → slice_index constants.new r ≡ system_constant (R.Ring.ring key.now.secret.ring.now) key.now.secret.run.now key.now.secret.shape 1 (λ i. slice_index x.now i) r }
    ensures system { SystemIn (R.Ring.ring key.now.secret.ring.now) key.now.secret.run.now key.now.secret.shape 1 (λ i. slice_index x.now i) (key.now.secret.shape.o1 + key.now.secret.shape.o1) rows.old rows.new }
{
    let secret = &key.secret;
    let o1 = secret.shape.o1 as usize;
    let layer = Layer {
        secret,
        number: 1,
        x,
    };
    layer.constants(constants).unwrap();
    layer.system(o1 + o1, rows).unwrap();
}

// Writes the start of a vinegar to a place, where the lengths fit; what `x`, `constants` and `rows` hold afterwards is open.
// `x`, `constants` and `rows` are parts of the lent workspace, which are borrowed one by one.
fn open<F: Field>(
    key: &SecretKey<'_, F>,
    vinegar: &[u8],
    place: &mut [u8],
    x: &mut [u8],
    constants: &mut [u8],
    rows: &mut [u8],
) -> Result<(), LayerFault<1>>
    requires place { length place.old ≡ place_length key.now.secret.shape }
    requires x { length x.old ≡ key.now.secret.shape.v1 }
    requires constants { length constants.old ≡ key.now.secret.shape.o1 }
    requires rows { length rows.old ≡ key.now.secret.shape.o1 * (key.now.secret.shape.o1 + key.now.secret.shape.o1) }
    ensures { Opened (F.Ring.ring key.now.secret.ring.now) key.now.secret.run.now key.now.secret.shape vinegar.now place.old result place.new }
{
    let shape = key.secret.shape;
    let (v1, o1) = (shape.v1 as usize, shape.o1 as usize);
    read_codes(key.secret.ring, vinegar, 0, x);
    first_rows(key, x, constants, rows);
    invert_left(key.secret.ring, rows, o1, &mut place[v1 + o1..]).unwrap()?;
    place[0..v1].copy_from_slice(x);
    place[v1..v1 + o1].copy_from_slice(constants);
    Ok(())
}

// Makes the start of a vinegar: its place gets the vinegar, the first layer's constants, and the inverse of the first layer's system.
// None, and the place as it was, where a length does not fit; a fault leaves the place as it was. What the workspace holds afterwards is open.
// The Option is apart from the Result, as in `eliminate`.
pub fn start<F: Field>(
    secret: &SecretRun<'_, F>,
    vinegar: &[u8],
    place: &mut [u8],
    work: &mut [u8],
) -> Option<Result<(), LayerFault<1>>>
    ensures { Started (F.Ring.ring secret.now.ring.now) secret.now.run.now secret.now.shape vinegar.now (length work.old) place.old result place.new }
{
    let key = secret.key()?;
    let shape = secret.shape;
    let (v1, o1) = (shape.v1 as usize, shape.o1 as usize);
    if vinegar.len() != packed_len(secret.ring.size(), v1) {
        return None;
    }
    if place.len() != shape.place_len() || work.len() < shape.sign_workspace() {
        return None;
    }
    let (x, rest) = work.split_at_mut(v1);
    let (constants, rest) = rest.split_at_mut(o1);
    let rows = &mut rest[0..o1 * (o1 + o1)];
    Some(open(&key, vinegar, place, x, constants, rows))
}
