ghost use Rattle.std.specs.Prelude.{◌≡◌, ℕ, ◌+◌, ◌*◌, ◌<◌, ◌≤◌, [], map, length, replicate};
ghost use Rattle.keys.specs.Heads.{shape_of};
ghost use Rattle.keys.specs.Shapes.{place_length};
ghost use Rattle.keys.specs.Refusals.{first, Answers};
ghost use Rattle.keys.specs.Seen.{seen};
ghost use Rattle.shelf.specs.Steps.{throw_buffers, throw_tests, end_tests, ThrowTried, ThrownAway};

use super::shelves::Shelf;
use super::state::{HandedBack, Start};
use fields::Field;
use keys::{Lent, ReadKey, Refusal, refuse_buffers};

impl<F: Field> Shelf<F> {
    // The buffers of `throw_away`.
    fn throw_lent<'a>(&self, key: &ReadKey<'a>, strip: &'a [u8]) -> [Lent<'a>; 2]
        ensures { map (seen (F.Ring.ring self.now.field).q) result ≡ throw_buffers (F.Ring.ring self.now.field).q self.now.inner key.now.bytes.now strip.now }
    {
        [key.secret_lent(&self.field), self.lent_strip(key, strip)]
    }

    // The tests of `throw_away` but for the start, in order: head, lengths, codes. The key, read, where they pass.
    fn throw_judged<'a>(&self, key: &'a [u8], strip: &[u8]) -> Result<ReadKey<'a>, Refusal>
        ensures { Answers (first (throw_tests (F.Ring.ring self.now.field).q self.now.inner key.now strip.now [])) result (λ k. k.bytes.now ≡ key.now) }
    {
        let key = ReadKey::read(&self.field, key)?;
        refuse_buffers(&self.field, &self.throw_lent(&key, strip))?;
        Ok(key)
    }

    // Tests a secret key and a strip as `throw_away` does, but for the start. Where this passes, the start in hand can be thrown away.
    pub fn judge(&self, key: &[u8], strip: &[u8]) -> Result<(), Refusal>
        ensures { Answers (first (throw_tests (F.Ring.ring self.now.field).q self.now.inner key.now strip.now [])) result (λ _. Unit {0}) }
    {
        self.throw_judged(key, strip)?;
        Ok(())
    }

    // Throws away a start that is lent: what `throw_away` does, but for the start itself.
    fn try_throw(&mut self, key: &[u8], strip: &mut [u8], start: &Start) -> Result<(), Refusal>
        ensures answer { ThrowTried (F.Ring.ring self.old.field) key.now start.now.number self.old.inner strip.old result self.new.inner strip.new }
        ensures field { self.new.field ≡ self.old.field }
    {
        let shape = self.throw_judged(key, strip)?.shape();
        self.strange(start)?;
        let at = self.place_start(&shape, start.number, strip);
        let place = &mut strip[at..at + shape.place_len()];
        place.fill(0);
        self.inner.thrown += 1;
        self.inner.hand = None;
        Ok(())
    }

    // Throws the start in hand away, and clears its place. After a refusal the start is handed back.
    pub fn throw_away(
        &mut self,
        key: &[u8],
        strip: &mut [u8],
        start: Start,
    ) -> Result<(), HandedBack>
        ensures answer { ThrownAway (F.Ring.ring self.old.field) key.now start self.old.inner strip.old result self.new.inner strip.new }
        ensures field { self.new.field ≡ self.old.field }
    {
        let answer = self.try_throw(key, strip, &start);
        start.end(answer)
    }
}
