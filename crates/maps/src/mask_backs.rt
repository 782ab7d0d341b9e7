ghost use Rattle.std.specs.Prelude.{◌≡◌, ℕ, ◌<◌, length, slice_index};
ghost use Rattle.algebra.specs.Matrices.{applied};
ghost use Rattle.maps.specs.SecretKeys.{mask_inverse, mask_side, BroughtBack, EveryMaskUndone};

use super::blocks::Block;
use super::masks::Part;
use super::secrets::SecretRun;
use super::squares::fill_row;
use fields::{Misfit, Ring};

// The two masks of a secret key: S, of the equations, and T, of the variables.
#[derive(Clone, Copy)]
pub enum Mask {
    Outer,
    Inner,
}

impl<R: Ring> SecretRun<'_, R> {
    // The entry i, j of the inverse of a mask.
    #[tactic(auto, using(crate::proofs::MaskRows::inverse_is, crate::proofs::MaskRows::back_block))]
    fn back_code(&self, mask: Mask, i: usize, j: usize) -> u8
        requires row { i < mask_side mask self.now.shape }
        requires column { j < mask_side mask self.now.shape }
        ensures { result ≡ mask_inverse mask (R.Ring.ring self.now.ring.now) self.now.run.now self.now.shape i j }
    {
        match mask.part(&self.shape, i, j) {
            Part::Unit(code) => code,
            Part::In(block, i, j) => self.ring.negative(self.block_code(block, i, j)),
            Part::Corner(i, j) => self.block_code(Block::T4, i, j),
        }
    }

    // Place i of the inverse of a mask times x: x(i), and what the row's blocks add; all between is 0.
    #[tactic(auto, unfolding(algebra::specs::Matrices::applied))]
    // A loop: as a `fold` what it returns did not prove.
    fn brought(&self, mask: Mask, x: &[u8], i: usize) -> u8
        requires length { length x.now ≡ mask_side mask self.now.shape }
        requires row { i < mask_side mask self.now.shape }
        ensures { result ≡ applied (R.Ring.ring self.now.ring.now) (mask_side mask self.now.shape) (mask_inverse mask (R.Ring.ring self.now.ring.now) self.now.run.now self.now.shape) (λ j. slice_index x.now j) i }
    {
        let ring = self.ring;
        let mut s = ring.product(1, x[i]);
        for j in mask.reach(&self.shape, i)..x.len() {
            let factor = self.back_code(mask, i, j);
            s = ring.sum(s, ring.product(factor, x[j]));
        }
        s
    }

    // Brings x, which a mask of the secret key was multiplied with, back: the inverse of the mask times x.
    // A misfit where one of the two has not the mask's side.
    pub fn bring_back(&self, mask: Mask, x: &[u8], image: &mut [u8]) -> Result<(), Misfit>
        ensures { BroughtBack (R.Ring.ring self.now.ring.now) self.now.run.now self.now.shape mask x.now image.old result image.new }
    {
        let n = mask.side(&self.shape);
        if x.len() != n || image.len() != n {
            return Err(Misfit);
        }
        fill_row(
            image,
            |i|
                requires { (length x.now ≡ mask_side mask self.now.shape) × (i < mask_side mask self.now.shape) }
                ensures { result ≡ applied (R.Ring.ring self.entry.now.ring.now) (mask_side mask self.entry.now.shape) (mask_inverse mask (R.Ring.ring self.entry.now.ring.now) self.entry.now.run.now self.entry.now.shape) (λ j. slice_index x.entry.now j) i }
            { self.brought(mask, x, i) },
        );
        Ok(())
    }
}

// Bringing back undoes each mask, and each mask undoes bringing back.
pub fn masks_undone<R: Ring>(ring: &R)
    ensures { EveryMaskUndone (R.Ring.ring ring.now) }
{}
