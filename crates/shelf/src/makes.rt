ghost use Rattle.std.specs.Prelude.{◌≡◌, ℕ, ◌+◌, ◌*◌, ◌<◌, ◌≤◌, not, ◌&&◌, map, length, replicate};
ghost use Rattle.keys.specs.Refusals.{test, first, Answers, buffer_tests};
ghost use Rattle.keys.specs.Seen.{seen};
ghost use Rattle.shelf.specs.Steps.{fresh, limit_test, Limits, make_tests, make_buffers, Made};

use super::shelves::Shelf;
use super::state::Inner;
use fields::Field;
use keys::{Buffer, Lent, ReadKey, Refusal, refuse_buffers};

// No shelf has more places than this.
const MOST_PLACES: u64 = 16;

// No shelf lives longer than this many starts.
const MOST_LIFE: u64 = 4294967295;

// The fresh state of so many places and such a life, where they are within their limits.
fn limited(places: u64, life: u64) -> Result<Inner, Refusal>
    ensures { Answers (limit_test places life) result (λ i. (i ≡ fresh places life) × Limits places life) }
{
    if 0 < places && places <= MOST_PLACES && 0 < life && life <= MOST_LIFE {
        Ok(Inner::fresh(places as u8, life as u32))
    } else {
        Err(Refusal::BadShelf)
    }
}

impl<F: Field> Shelf<F> {
    // A new shelf over a field: no places, life 0.
    pub fn new(field: F) -> Shelf<F>
        ensures { (result.inner ≡ fresh 0 0) × (result.field ≡ field) }
    {
        Shelf {
            field,
            inner: Inner::fresh(0, 0),
        }
    }

    // The buffers of `make`.
    fn make_lent<'a>(&self, key: &ReadKey<'a>, strip: &[u8], inner: &Inner) -> [Lent<'a>; 2]
        ensures { map (seen (F.Ring.ring self.now.field).q) result ≡ make_buffers (F.Ring.ring self.now.field).q key.now.bytes.now strip.now inner.now.places }
    {
        [
            key.secret_lent(&self.field),
            Lent::space(Buffer::Strip, strip, inner.strip_len(&key.shape())),
        ]
    }

    // The tests of `make`, in order: head, places and life, lengths, codes of the key. The fresh state where they pass.
    fn make_judged(
        &self,
        key: &[u8],
        strip: &[u8],
        places: u64,
        life: u64,
    ) -> Result<Inner, Refusal>
        ensures { Answers (first (make_tests (F.Ring.ring self.now.field).q key.now strip.now places life)) result (λ i. (i ≡ fresh places life) × Limits places life) }
    {
        let key = ReadKey::read(&self.field, key)?;
        let inner = limited(places, life)?;
        refuse_buffers(&self.field, &self.make_lent(&key, strip, &inner))?;
        Ok(inner)
    }

    // Makes the shelf anew, with so many places and such a life, and clears the strip; the next story begins.
    pub fn make(
        &mut self,
        key: &[u8],
        strip: &mut [u8],
        places: u64,
        life: u64,
    ) -> Result<(), Refusal>
        ensures answer { Made (F.Ring.ring self.old.field) key.now places life self.old.inner strip.old result self.new.inner strip.new }
        ensures field { self.new.field ≡ self.old.field }
    {
        self.inner = self.make_judged(key, strip, places, life)?;
        strip.fill(0);
        Ok(())
    }
}
