ghost use Rattle.std.specs.Prelude.{◌≡◌, ℕ, ◌≤◌, length, take, drop};
ghost use Rattle.keys.specs.Shapes.{secret_codes, public_codes};
ghost use Rattle.keys.specs.Refusals.{Answers, first, packed_run};
ghost use Rattle.keys.specs.Heads.{shape_of, head_of, head_tests};
ghost use Rattle.keys.specs.Seen.{seen};

use super::heads::{Head, read_head};
use super::lent::Lent;
use super::refusals::{Buffer, Refusal};
use super::shapes::Shape;
use fields::Ring;

// A key whose head has been read.
#[derive(Clone, Copy)]
pub struct ReadKey<'a> {
    pub bytes: &'a [u8],
    pub head: Head,
    pub ghost read: { head ≡ head_of bytes.now },
    pub ghost long: { 4 ≤ length bytes.now },
}

impl<'a> ReadKey<'a> {
    // Reads a key's head: the first refusal that its tests give, or the key and what its head says.
    pub fn read<R: Ring>(ring: &R, bytes: &'a [u8]) -> Result<ReadKey<'a>, Refusal>
        ensures { Answers (first (head_tests (R.Ring.ring ring.now).q bytes.now)) result (λ k. k.bytes.now ≡ bytes.now) }
    {
        let head = read_head(ring, bytes)?;
        Ok(ReadKey { bytes, head })
    }

    // The key's shape.
    pub fn shape(&self) -> Shape
        ensures { result ≡ shape_of self.now.bytes.now }
    {
        self.head.shape
    }

    // The bytes of the head, and the run after it.
    pub fn parts(&self) -> (&'a [u8], &'a [u8])
        ensures head { result.0.now ≡ take (head_of self.now.bytes.now).len self.now.bytes.now }
        ensures run { result.1.now ≡ drop (head_of self.now.bytes.now).len self.now.bytes.now }
    {
        self.bytes.split_at(self.head.len as usize)
    }

    // The run after the head.
    pub fn run(&self) -> &'a [u8]
        ensures { result.now ≡ drop (head_of self.now.bytes.now).len self.now.bytes.now }
    {
        self.parts().1
    }

    // The key as a lent buffer: exactly n codes after the head.
    fn lent<R: Ring>(&self, ring: &R, n: usize) -> Lent<'a>
        ensures { seen (R.Ring.ring ring.now).q result ≡ packed_run (R.Ring.ring ring.now).q Buffer.Key self.now.bytes.now (head_of self.now.bytes.now).len n }
    {
        Lent::packed_run(ring, Buffer::Key, self.bytes, self.head.len, n)
    }

    // A secret key as a lent buffer.
    pub fn secret_lent<R: Ring>(&self, ring: &R) -> Lent<'a>
        ensures { seen (R.Ring.ring ring.now).q result ≡ packed_run (R.Ring.ring ring.now).q Buffer.Key self.now.bytes.now (head_of self.now.bytes.now).len (secret_codes (shape_of self.now.bytes.now)) }
    {
        self.lent(ring, self.shape().secret_codes())
    }

    // A public key as a lent buffer.
    pub fn public_lent<R: Ring>(&self, ring: &R) -> Lent<'a>
        ensures { seen (R.Ring.ring ring.now).q result ≡ packed_run (R.Ring.ring ring.now).q Buffer.Key self.now.bytes.now (head_of self.now.bytes.now).len (public_codes (shape_of self.now.bytes.now)) }
    {
        self.lent(ring, self.shape().public_codes())
    }
}
