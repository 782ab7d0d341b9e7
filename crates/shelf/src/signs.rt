ghost use Rattle.std.specs.Prelude.{◌≡◌, ℕ, ◌+◌, ◌*◌, ◌<◌, ◌≤◌, map, length, replicate};
ghost use Rattle.keys.specs.Heads.{shape_of};
ghost use Rattle.keys.specs.Shapes.{place_length};
ghost use Rattle.keys.specs.Refusals.{first, Answers};
ghost use Rattle.keys.specs.Seen.{seen};
ghost use Rattle.shelf.specs.Steps.{sign_buffers, sign_early, with_place, Left, SignTried, Signed};

use super::shelves::Shelf;
use super::state::{HandedBack, Start};
use fields::{Field, packed_len};
use keys::{Buffer, Lent, ReadKey, Refusal, Wipe, refuse_codes, refuse_lengths};
use maps::SecretRun;
use signing::finish;

impl<F: Field> Shelf<F> {
    // The buffers of `sign`, in their order.
    fn sign_lent<'a>(
        &self,
        key: &ReadKey<'a>,
        strip: &'a [u8],
        digest: &'a [u8],
        signature: &[u8],
        workspace: &[u8],
    ) -> [Lent<'a>; 5]
        ensures { map (seen (F.Ring.ring self.now.field).q) result ≡ sign_buffers (F.Ring.ring self.now.field).q self.now.inner key.now.bytes.now strip.now digest.now signature.now workspace.now }
    {
        let shape = key.shape();
        let (n, m) = (shape.variables(), shape.equations());
        let signature_len = packed_len(self.field.size(), n);
        [
            key.secret_lent(&self.field),
            self.lent_strip(key, strip),
            Lent::packed_run(&self.field, Buffer::Digest, digest, 0, m),
            Lent::space(Buffer::Signature, signature, signature_len),
            Lent::workspace(workspace, shape.sign_workspace()),
        ]
    }

    // The tests of `sign` that leave the workspace untouched: head, and lengths. The key, read, and the buffers where they pass.
    fn sign_judged<'k: 'a, 'a>(
        &self,
        key: &'k [u8],
        strip: &'a [u8],
        digest: &'a [u8],
        signature: &[u8],
        workspace: &[u8],
    ) -> Result<(ReadKey<'k>, [Lent<'a>; 5]), Refusal>
        ensures { Answers (first (sign_early (F.Ring.ring self.now.field).q self.now.inner key.now strip.now digest.now signature.now workspace.now)) result (λ r. (r.0.bytes.now ≡ key.now) × (map (seen (F.Ring.ring self.now.field).q) r.1 ≡ sign_buffers (F.Ring.ring self.now.field).q self.now.inner key.now strip.now digest.now signature.now workspace.now)) }
    {
        let key = ReadKey::read(&self.field, key)?;
        let buffers = self.sign_lent(&key, strip, digest, signature, workspace);
        refuse_lengths(&buffers)?;
        Ok((key, buffers))
    }

    // Signs with a start that is lent: what `sign` does, but for the start itself.
    fn try_sign(
        &mut self,
        key: &[u8],
        strip: &mut [u8],
        start: &Start,
        digest: &[u8],
        signature: &mut [u8],
        workspace: &mut [u8],
    ) -> Result<(), Refusal>
        ensures answer { SignTried (F.Ring.ring self.old.field) key.now digest.now start.now.number self.old.inner strip.old signature.old workspace.old result self.new.inner strip.new signature.new }
        ensures work { Left (sign_early (F.Ring.ring self.old.field).q self.old.inner key.now strip.old digest.now signature.old workspace.old) workspace.old workspace.new }
        ensures field { self.new.field ≡ self.old.field }
    {
        let (key, buffers) = self.sign_judged(key, strip, digest, signature, workspace)?;
        let guard = Wipe { bytes: workspace };
        refuse_codes(&self.field, &buffers)?;
        self.strange(start)?;
        let shape = key.shape();
        let at = self.place_start(&shape, start.number, strip);
        let place = &mut strip[at..at + shape.place_len()];
        let secret = SecretRun {
            ring: &self.field,
            run: key.run(),
            shape,
        };
        finish(&secret, place, digest, signature, guard.bytes).unwrap()?;
        place.fill(0);
        self.inner.signed += 1;
        self.inner.hand = None;
        Ok(())
    }

    // Ends the start in hand in the signature of a digest, and clears its place. After a refusal the start is handed back.
    pub fn sign(
        &mut self,
        key: &[u8],
        strip: &mut [u8],
        start: Start,
        digest: &[u8],
        signature: &mut [u8],
        workspace: &mut [u8],
    ) -> Result<(), HandedBack>
        ensures answer { Signed (F.Ring.ring self.old.field) key.now digest.now start self.old.inner strip.old signature.old workspace.old result self.new.inner strip.new signature.new }
        ensures work { Left (sign_early (F.Ring.ring self.old.field).q self.old.inner key.now strip.old digest.now signature.old workspace.old) workspace.old workspace.new }
        ensures field { self.new.field ≡ self.old.field }
    {
        let answer = self.try_sign(key, strip, &start, digest, signature, workspace);
        start.end(answer)
    }
}
