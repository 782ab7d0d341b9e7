ghost use Rattle.std.specs.Prelude.{◌≡◌, ℕ, ◌+◌, ◌^◌, ◌<◌, ◌≤◌, length};
ghost use Rattle.keys.specs.Shapes.{public_codes, secret_codes};
ghost use Rattle.keys.specs.Refusals.{Answers, first};
ghost use Rattle.keys.specs.Heads.{head_tests, head_of, key_length};

use super::refusals::Refusal;
use super::shapes::Shape;
use fields::{Ring, packed_len};

// How many bytes a head has: q - 1, v1, o1, o2.
const HEAD_LEN: u8 = 4;

// What a key's head says: the shape, and the length of the head itself.
#[derive(Clone, Copy, PartialEq, Eq, Debug)]
pub struct Head {
    pub shape: Shape,
    pub len: u8,
}

impl Head {
    // The head of a shape.
    pub fn new(shape: Shape) -> Head
        ensures { result ≡ record { shape = shape; len = 4 } }
    {
        Head {
            shape,
            len: HEAD_LEN,
        }
    }

    // The length of a key of so many codes over a ring of q codes, head included.
    fn key_len(&self, q: u16, codes: usize) -> usize
        requires { codes ≤ 2 ^ 54 }
        ensures { result ≡ key_length self.now.len q codes }
    {
        self.len as usize + packed_len(q, codes)
    }

    // The length of a secret key over a ring of q codes, head included.
    // One line here, and one for public keys: what differs is the count.
    pub fn secret_len(&self, q: u16) -> usize
        ensures { result ≡ key_length self.now.len q (secret_codes self.now.shape) }
    {
        self.key_len(q, self.shape.secret_codes())
    }

    // The length of a public key over a ring of q codes, head included.
    pub fn public_len(&self, q: u16) -> usize
        ensures { result ≡ key_length self.now.len q (public_codes self.now.shape) }
    {
        self.key_len(q, self.shape.public_codes())
    }
}

// Reads a key's head: the first refusal that its tests give, or what it says.
pub fn read_head<R: Ring>(ring: &R, key: &[u8]) -> Result<Head, Refusal>
    ensures { Answers (first (head_tests (R.Ring.ring ring.now).q key.now)) result (λ h. (h ≡ head_of key.now) × (4 ≤ length key.now)) }
{
    let &[first, v1, o1, o2, ..] = key else {
        return Err(Refusal::ShortHead);
    };
    if first as u16 + 1 != ring.size() {
        return Err(Refusal::OtherField);
    }
    let shape = Shape::from([v1, o1, o2]);
    if !shape.is_within() {
        return Err(Refusal::OddShape);
    }
    Ok(Head::new(shape))
}
