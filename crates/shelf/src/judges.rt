ghost use Rattle.std.specs.Prelude.{◌≡◌, ℕ, ◌+◌, ◌-◌, ◌*◌, ◌%◌, ◌<◌, ◌≤◌, Some, map, length};
ghost use Rattle.keys.specs.Shapes.{place_length};
ghost use Rattle.keys.specs.Refusals.{first, Answers};
ghost use Rattle.keys.specs.Seen.{seen};
ghost use Rattle.shelf.specs.Steps.{place_start, Room, prepare_tests, end_tests, strip_buffer};

use super::shelves::Shelf;
use super::state::Start;
use fields::Field;
use keys::{Buffer, Lent, ReadKey, Refusal, Shape};

impl<F: Field> Shelf<F> {
    // The strip of the shelf's places.
    pub(crate) fn lent_strip<'a>(&self, key: &ReadKey, strip: &'a [u8]) -> Lent<'a>
        ensures { seen (F.Ring.ring self.now.field).q result ≡ strip_buffer self.now.inner key.now.bytes.now strip.now }
    {
        Lent::byte_run(Buffer::Strip, strip, self.inner.strip_len(&key.shape()))
    }

    // Refuses a shelf that has prepared all its starts, and one whose places are all filled by starts that are waiting or in hand.
    pub(crate) fn has_room(&self) -> Result<(), Refusal>
        ensures { Answers (first (prepare_tests self.now.inner)) result (λ _. Room self.now.inner) }
    {
        if self.inner.life <= self.inner.prepared {
            return Err(Refusal::WornOut);
        }
        let waiting = self.inner.prepared - self.inner.taken;
        let busy = waiting as u64 + self.inner.hand.is_some() as u64;
        if self.inner.places as u64 <= busy {
            return Err(Refusal::Full);
        }
        Ok(())
    }

    // Refuses a start that is not the one in hand.
    pub(crate) fn strange(&self, start: &Start) -> Result<(), Refusal>
        ensures { Answers (first (end_tests self.now.inner start.now.number)) result (λ _. self.now.inner.hand ≡ Some start.now.number) }
    {
        match self.inner.hand {
            Some(number) if number == start.number => Ok(()),
            _ => Err(Refusal::StrangeStart),
        }
    }

    // Where the place of a start begins in a strip that has the shelf's places.
    pub(crate) fn place_start(&self, shape: &Shape, number: u32, strip: &[u8]) -> usize
        requires { (0 < self.now.inner.places) × ((0 < number) × (length strip.now ≡ self.now.inner.places * place_length shape.now)) }
        ensures value { result ≡ place_start self.now.inner shape.now number }
        ensures inside { result + place_length shape.now ≤ length strip.now }
    {
        ((number - 1) % self.inner.places as u32) as usize * shape.place_len()
    }
}
