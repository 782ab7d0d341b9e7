ghost use Rattle.std.specs.Prelude.{◌≡◌, ℕ, ◌+◌, ◌*◌, ◌<◌, ◌≤◌, length};
ghost use Rattle.fields.specs.Packing.{packed_length};
ghost use Rattle.matrices.specs.Arrays.{entry};
ghost use Rattle.matrices.specs.QuadraticSystems.{pairs as pairs_of};
ghost use Rattle.keys.specs.Shapes.{variables, equations, public_codes};
ghost use Rattle.maps.specs.SecretKeys.{outer_mask, inner_mask};
ghost use Rattle.maps.specs.PublicKeys.{central_form, FormPut, Mixed, PublicRun};

use super::forms_put::{mix, put_form};
use super::mask_backs::Mask;
use super::secrets::SecretKey;
use fields::Ring;
use keys::pairs;
use matrices::{multiply, multiply_transposed};

impl<R: Ring> SecretKey<'_, R> {
    // Writes the codes of equation f of the central map after T, whose matrix is `inner`; `left` and `right` are space for a matrix each, and hold anything afterwards.
    fn put_central(
        &self,
        f: usize,
        inner: &[u8],
        left: &mut [u8],
        right: &mut [u8],
        public: &mut [u8],
    )
        requires equation { f < equations self.now.secret.shape }
        requires inner { length inner.now ≡ variables self.now.secret.shape * variables self.now.secret.shape }
        requires left { length left.old ≡ variables self.now.secret.shape * variables self.now.secret.shape }
        requires right { length right.old ≡ variables self.now.secret.shape * variables self.now.secret.shape }
        requires room { length public.old ≡ packed_length (R.Ring.ring self.now.secret.ring.now).q (pairs_of (variables self.now.secret.shape) * equations self.now.secret.shape) }
        requires mask { (i j : ℕ) → i < variables self.now.secret.shape → j < variables self.now.secret.shape → entry inner.now (variables self.now.secret.shape) i j ≡ inner_mask (R.Ring.ring self.now.secret.ring.now) self.now.secret.run.now self.now.secret.shape i j }
        ensures { FormPut (R.Ring.ring self.now.secret.ring.now).q (variables self.now.secret.shape) (equations self.now.secret.shape) f (pairs_of (variables self.now.secret.shape)) (central_form (R.Ring.ring self.now.secret.ring.now) self.now.secret.run.now self.now.secret.shape f) public.old public.new }
    {
        let ring = self.secret.ring;
        let (n, m) = (self.secret.shape.variables(), self.secret.shape.equations());
        self.secret.fill_central(f, left);
        multiply(ring, left, inner, n, n, n, right).unwrap();
        multiply_transposed(ring, inner, right, n, n, n, left).unwrap();
        put_form(ring, left, n, m, f, public);
    }

    // Multiplies the codes of each pair by S; `space` has room for its matrix, and holds anything afterwards.
    #[tactic(auto, using(crate::proofs::Publishing::variables_few, crate::proofs::Publishing::pairs_few, crate::proofs::Publishing::mixed_like))]
    fn mix_outer(&self, space: &mut [u8], public: &mut [u8])
        requires space { equations self.now.secret.shape * equations self.now.secret.shape ≤ length space.old }
        requires room { length public.old ≡ packed_length (R.Ring.ring self.now.secret.ring.now).q (pairs_of (variables self.now.secret.shape) * equations self.now.secret.shape) }
        ensures { Mixed (R.Ring.ring self.now.secret.ring.now) (equations self.now.secret.shape) (pairs_of (variables self.now.secret.shape)) (outer_mask (R.Ring.ring self.now.secret.ring.now) self.now.secret.run.now self.now.secret.shape) public.old public.new }
    {
        let (n, m) = (self.secret.shape.variables(), self.secret.shape.equations());
        let outer = &mut space[0..m * m];
        self.secret.fill_mask(Mask::Outer, outer);
        mix(self.secret.ring, outer, m, pairs(n as u32), public);
    }

    // Writes the run of the public key; `inner`, `left` and `right` are space for a matrix each, and hold anything afterwards.
    #[tactic(auto, using(crate::proofs::Publishing::forms_next, crate::proofs::Publishing::over_next, crate::proofs::Publishing::public_run, crate::proofs::Publishing::code_zeros), unfolding(keys::specs::Shapes::public_codes))]
    pub(crate) fn write_run(
        &self,
        inner: &mut [u8],
        left: &mut [u8],
        right: &mut [u8],
        public: &mut [u8],
    )
        requires inner { length inner.old ≡ variables self.now.secret.shape * variables self.now.secret.shape }
        requires left { length left.old ≡ variables self.now.secret.shape * variables self.now.secret.shape }
        requires right { length right.old ≡ variables self.now.secret.shape * variables self.now.secret.shape }
        requires room { length public.old ≡ packed_length (R.Ring.ring self.now.secret.ring.now).q (public_codes self.now.secret.shape) }
        ensures { PublicRun (R.Ring.ring self.now.secret.ring.now) self.now.secret.run.now self.now.secret.shape public.new }
    {
        let m = self.secret.shape.equations();
        public.fill(0);
        self.secret.fill_mask(Mask::Inner, inner);
        for f in 0..m {
            self.put_central(f, inner, left, right, public);
        }
        self.mix_outer(inner, public);
    }
}
