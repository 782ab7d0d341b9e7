ghost use Rattle.std.specs.Prelude.{◌≡◌, ℕ, ◌*◌, ◌<◌, ◌≤◌, length};
ghost use Rattle.algebra.specs.Masks.{second_of};
ghost use Rattle.matrices.specs.Arrays.{entry};
ghost use Rattle.keys.specs.Shapes.{variables, equations};
ghost use Rattle.maps.specs.SecretKeys.{block_t1, block_t3, block_t4, mask_side, mask_of, outer_with, inner_with, mask_with, Blocks, placed, PartInside};

use super::blocks::Block;
use super::mask_backs::Mask;
use super::secrets::SecretRun;
use super::squares::fill_square;
use fields::Ring;
use keys::Shape;

// What stands at an entry of a mask or of its inverse: a code of the identity, an entry of a block, or one of the corner, where T has T2 and its inverse T4.
#[derive(Clone, Copy)]
pub(crate) enum Part {
    Unit(u8),
    In(Block, usize, usize),
    Corner(usize, usize),
}

// What stands at the entry e, f of S: the identity, with S' in the first o1 rows and the last o2 columns.
#[tactic(auto, unfolding(algebra::specs::Masks::mask_s))]
fn outer_part(shape: &Shape, e: usize, f: usize) -> Part
    requires row { e < equations shape.now }
    requires column { f < equations shape.now }
    ensures entry { (B : Blocks) (C : ℕ → ℕ → ℕ) → outer_with shape.now B C e f ≡ placed B C result }
    ensures inside { PartInside shape.now result }
{
    let o1 = shape.o1 as usize;
    if e == f {
        Part::Unit(1)
    } else if e >= o1 || f < o1 {
        Part::Unit(0)
    } else {
        Part::In(Block::S, e, f - o1)
    }
}

// What stands at the entry i, j of T: the identity, with T1 and T2 in the first v1 rows, and T3 in the next o1 rows, under T2.
#[tactic(auto, unfolding(algebra::specs::Masks::mask_t))]
fn inner_part(shape: &Shape, i: usize, j: usize) -> Part
    requires row { i < variables shape.now }
    requires column { j < variables shape.now }
    ensures entry { (B : Blocks) (C : ℕ → ℕ → ℕ) → inner_with shape.now B C i j ≡ placed B C result }
    ensures inside { PartInside shape.now result }
{
    let v1 = shape.v1 as usize;
    let v2 = v1 + shape.o1 as usize;
    if i == j {
        Part::Unit(1)
    } else if i >= v2 || j < v1 || (i >= v1 && j < v2) {
        Part::Unit(0)
    } else if i >= v1 {
        Part::In(Block::T3, i - v1, j - v2)
    } else if j < v2 {
        Part::In(Block::T1, i, j - v1)
    } else {
        Part::Corner(i, j - v2)
    }
}

impl Mask {
    // The mask's side.
    pub(crate) fn side(self, shape: &Shape) -> usize
        ensures value { result ≡ mask_side self shape.now }
        ensures bound { result ≤ 196605 }
    {
        match self {
            Mask::Outer => shape.equations(),
            Mask::Inner => shape.variables(),
        }
    }

    // The column at which the blocks of row i begin, in the mask and in its inverse; the side where the row has none.
    pub(crate) fn reach(self, shape: &Shape, i: usize) -> usize
        requires row { i < mask_side self shape.now }
        ensures bound { result ≤ mask_side self shape.now }
        ensures after { i < result }
        ensures identity { (B : Blocks) (C : ℕ → ℕ → ℕ) (j : ℕ) → j < result → (i ≡ j → ⊥) → mask_with self shape.now B C i j ≡ 0 }
    {
        let (v1, o1) = (shape.v1 as usize, shape.o1 as usize);
        let first = match self {
            Mask::Outer => o1,
            Mask::Inner if i < v1 => v1,
            Mask::Inner => v1 + o1,
        };
        if i < first { first } else { self.side(shape) }
    }

    // What stands at an entry of the mask.
    pub(crate) fn part(self, shape: &Shape, i: usize, j: usize) -> Part
        requires row { i < mask_side self shape.now }
        requires column { j < mask_side self shape.now }
        ensures entry { (B : Blocks) (C : ℕ → ℕ → ℕ) → mask_with self shape.now B C i j ≡ placed B C result }
        ensures inside { PartInside shape.now result }
    {
        match self {
            Mask::Outer => outer_part(shape, i, j),
            Mask::Inner => inner_part(shape, i, j),
        }
    }
}

impl<R: Ring> SecretRun<'_, R> {
    // The entry i, j of T2 = T1 T3 - T4.
    #[tactic(auto, unfolding(algebra::specs::Masks::second_of))]
    // A loop, as in `brought`: as a `fold` that one did not prove.
    fn second_code(&self, i: usize, j: usize) -> u8
        requires row { i < self.now.shape.v1 }
        requires column { j < self.now.shape.o2 }
        ensures { result ≡ second_of (R.Ring.ring self.now.ring.now) self.now.shape.o1 (block_t1 (R.Ring.ring self.now.ring.now).q self.now.run.now self.now.shape) (block_t3 (R.Ring.ring self.now.ring.now).q self.now.run.now self.now.shape) (block_t4 (R.Ring.ring self.now.ring.now).q self.now.run.now self.now.shape) i j }
    {
        let mut s = 0;
        for k in 0..self.shape.o1 as usize {
            let a = self.block_code(Block::T1, i, k);
            let b = self.block_code(Block::T3, k, j);
            s = self.ring.sum(s, self.ring.product(a, b));
        }
        let less = self.block_code(Block::T4, i, j);
        let minus = self.ring.negative(less);
        self.ring.sum(s, minus)
    }

    // The entry i, j of a mask.
    #[tactic(auto, using(crate::proofs::MaskRows::mask_is))]
    fn mask_code(&self, mask: Mask, i: usize, j: usize) -> u8
        requires row { i < mask_side mask self.now.shape }
        requires column { j < mask_side mask self.now.shape }
        ensures { result ≡ mask_of mask (R.Ring.ring self.now.ring.now) self.now.run.now self.now.shape i j }
    {
        match mask.part(&self.shape, i, j) {
            Part::Unit(code) => code,
            Part::In(block, i, j) => self.block_code(block, i, j),
            Part::Corner(i, j) => self.second_code(i, j),
        }
    }

    // Writes a mask, row by row.
    pub(crate) fn fill_mask(&self, mask: Mask, matrix: &mut [u8])
        requires { length matrix.old ≡ mask_side mask self.now.shape * mask_side mask self.now.shape }
        ensures { (i j : ℕ) → i < mask_side mask self.now.shape → j < mask_side mask self.now.shape → entry matrix.new (mask_side mask self.now.shape) i j ≡ mask_of mask (R.Ring.ring self.now.ring.now) self.now.run.now self.now.shape i j }
    {
        fill_square(
            matrix,
            mask.side(&self.shape),
            |i, j|
                requires { (i < mask_side mask self.now.shape) × (j < mask_side mask self.now.shape) }
                ensures { result ≡ mask_of mask (R.Ring.ring self.entry.now.ring.now) self.entry.now.run.now self.entry.now.shape i j }
            { self.mask_code(mask, i, j) },
        );
    }
}
