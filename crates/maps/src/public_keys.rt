ghost use Rattle.std.specs.Prelude.{◌≡◌, ℕ, ◌+◌, ◌*◌, ◌<◌, ◌≤◌, map, length, take, drop};
ghost use Rattle.fields.specs.Packing.{packed_length};
ghost use Rattle.keys.specs.Shapes.{public_codes, key_workspace};
ghost use Rattle.keys.specs.Refusals.{Answers, first};
ghost use Rattle.keys.specs.Seen.{seen};
ghost use Rattle.maps.specs.PublicKeys.{PublicRun, early_tests, public_buffers, PublicMade};

use super::secrets::{SecretKey, SecretRun};
use fields::Ring;
use keys::{Buffer, Lent, ReadKey, Refusal, Wipe, refuse_codes, refuse_lengths};

// The buffers of `public_key`, in their order.
fn lent<'a, R: Ring>(ring: &R, key: &ReadKey<'a>, public: &[u8], workspace: &[u8]) -> [Lent<'a>; 3]
    ensures { map (seen (R.Ring.ring ring.now).q) result ≡ public_buffers (R.Ring.ring ring.now).q key.now.bytes.now public.now workspace.now }
{
    let public_len = key.head.public_len(ring.size());
    [
        key.secret_lent(ring),
        Lent::space(Buffer::PublicKey, public, public_len),
        Lent::workspace(workspace, key.shape().key_workspace()),
    ]
}

// The tests of `public_key` that leave the workspace untouched, in order; the key, read, and the buffers where they pass.
fn judge<'a, R: Ring>(
    ring: &R,
    key: &'a [u8],
    public: &[u8],
    workspace: &[u8],
) -> Result<(ReadKey<'a>, [Lent<'a>; 3]), Refusal>
    ensures { Answers (first (early_tests (R.Ring.ring ring.now).q key.now public.now workspace.now)) result (λ r. (r.0.bytes.now ≡ key.now) × (map (seen (R.Ring.ring ring.now).q) r.1 ≡ public_buffers (R.Ring.ring ring.now).q key.now public.now workspace.now)) }
{
    let key = ReadKey::read(ring, key)?;
    let buffers = lent(ring, &key, public, workspace);
    refuse_lengths(&buffers)?;
    Ok((key, buffers))
}

impl<R: Ring> SecretKey<'_, R> {
    // Writes a head and the run of the public key after it; what the workspace holds afterwards is open.
    #[tactic(auto, using(std::proofs::lemmas::List::take_at, std::proofs::lemmas::List::drop_at))]
    fn publish(&self, head: &[u8], work: &mut [u8], public: &mut [u8])
        requires public { length public.old ≡ length head.now + packed_length (R.Ring.ring self.now.secret.ring.now).q (public_codes self.now.secret.shape) }
        requires work { key_workspace self.now.secret.shape ≤ length work.old }
        ensures head { take (length head.now) public.new ≡ head.now }
        ensures run { PublicRun (R.Ring.ring self.now.secret.ring.now) self.now.secret.run.now self.now.secret.shape (drop (length head.now) public.new) }
    {
        let n = self.secret.shape.variables();
        let (front, run) = public.split_at_mut(head.len());
        front.copy_from_slice(head);
        let (inner, rest) = work.split_at_mut(n * n);
        let (left, rest) = rest.split_at_mut(n * n);
        self.write_run(inner, left, &mut rest[0..n * n], run);
    }
}

// Makes the public key of a secret key.
pub fn public_key<R: Ring>(
    ring: &R,
    key: &[u8],
    public: &mut [u8],
    workspace: &mut [u8],
) -> Result<(), Refusal>
    ensures { PublicMade (R.Ring.ring ring.now) key.now public.old workspace.old result public.new workspace.new }
{
    let (key, buffers) = judge(ring, key, public, workspace)?;
    let shape = key.shape();
    let guard = Wipe { bytes: workspace };
    refuse_codes(ring, &buffers)?;
    let (head, run) = key.parts();
    let secret = SecretRun { ring, run, shape };
    SecretKey { secret }.publish(head, guard.bytes, public);
    Ok(())
}
