ghost use Rattle.std.specs.Prelude.{◌≡◌, ℕ, ◌+◌, ◌*◌, ◌<◌, ◌≤◌, map, length, Some};
ghost use Rattle.keys.specs.Refusals.{first, Answers};
ghost use Rattle.keys.specs.Seen.{seen};
ghost use Rattle.shelf.specs.Steps.{prepare_buffers, prepare_early, Left, Prepared};

use super::shelves::Shelf;
use fields::Field;
use keys::{Buffer, Lent, ReadKey, Refusal, Wipe, refuse_codes, refuse_lengths};
use maps::SecretRun;
use signing::start;

impl<F: Field> Shelf<F> {
    // The buffers of `prepare`, in their order.
    fn prepare_lent<'a>(
        &self,
        key: &ReadKey<'a>,
        strip: &'a [u8],
        vinegar: &'a [u8],
        workspace: &[u8],
    ) -> [Lent<'a>; 4]
        ensures { map (seen (F.Ring.ring self.now.field).q) result ≡ prepare_buffers (F.Ring.ring self.now.field).q self.now.inner key.now.bytes.now strip.now vinegar.now workspace.now }
    {
        let shape = key.shape();
        [
            key.secret_lent(&self.field),
            self.lent_strip(key, strip),
            Lent::packed_run(&self.field, Buffer::Vinegar, vinegar, 0, shape.v1 as usize),
            Lent::workspace(workspace, shape.sign_workspace()),
        ]
    }

    // The tests of `prepare` that leave the workspace untouched: head, and lengths. The key, read, and the buffers where they pass.
    // Beside `sign_judged`: one function over a closure that lends the buffers is not covered by the borrow checker.
    fn prepare_judged<'k: 'a, 'a>(
        &self,
        key: &'k [u8],
        strip: &'a [u8],
        vinegar: &'a [u8],
        workspace: &[u8],
    ) -> Result<(ReadKey<'k>, [Lent<'a>; 4]), Refusal>
        ensures { Answers (first (prepare_early (F.Ring.ring self.now.field).q self.now.inner key.now strip.now vinegar.now workspace.now)) result (λ r. (r.0.bytes.now ≡ key.now) × (map (seen (F.Ring.ring self.now.field).q) r.1 ≡ prepare_buffers (F.Ring.ring self.now.field).q self.now.inner key.now strip.now vinegar.now workspace.now)) }
    {
        let key = ReadKey::read(&self.field, key)?;
        let buffers = self.prepare_lent(&key, strip, vinegar, workspace);
        refuse_lengths(&buffers)?;
        Ok((key, buffers))
    }

    // Gives a vinegar the next number, and makes its start in the place of that number.
    pub fn prepare(
        &mut self,
        key: &[u8],
        strip: &mut [u8],
        vinegar: &[u8],
        workspace: &mut [u8],
    ) -> Result<u32, Refusal>
        ensures answer { Prepared (F.Ring.ring self.old.field) key.now vinegar.now self.old.inner strip.old workspace.old result self.new.inner strip.new }
        ensures work { Left (prepare_early (F.Ring.ring self.old.field).q self.old.inner key.now strip.old vinegar.now workspace.old) workspace.old workspace.new }
        ensures field { self.new.field ≡ self.old.field }
    {
        let (key, buffers) = self.prepare_judged(key, strip, vinegar, workspace)?;
        let guard = Wipe { bytes: workspace };
        refuse_codes(&self.field, &buffers)?;
        self.has_room()?;
        let shape = key.shape();
        let number = self.inner.prepared + 1;
        let at = self.place_start(&shape, number, strip);
        let place = &mut strip[at..at + shape.place_len()];
        let secret = SecretRun {
            ring: &self.field,
            run: key.run(),
            shape,
        };
        start(&secret, vinegar, place, guard.bytes).unwrap()?;
        self.inner.prepared = number;
        Ok(number)
    }
}
