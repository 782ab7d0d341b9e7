ghost use Rattle.std.specs.Prelude.{◌≡◌, ◌<◌, ◌≤◌, ◌^◌};
ghost use Rattle.maps.specs.SecretKeys.{block_start, block_rows, block_columns, block_of};

use super::secrets::SecretRun;
use fields::{Ring, read_code};
use keys::Shape;

// The blocks of the masks that a secret key holds, in their order.
#[derive(Clone, Copy)]
pub(crate) enum Block {
    S,
    T1,
    T4,
    T3,
}

impl Block {
    // Where the block begins in the run.
    fn start(self, shape: &Shape) -> usize
        ensures value { result ≡ block_start shape.now self }
        ensures bound { result ≤ 2 ^ 40 }
        ensures columns { block_columns shape.now self ≤ 65535 }
    {
        let (v1, o1, o2) = (shape.v1 as usize, shape.o1 as usize, shape.o2 as usize);
        match self {
            Block::S => 0,
            Block::T1 => o1 * o2,
            Block::T4 => o1 * o2 + v1 * o1,
            Block::T3 => o1 * o2 + v1 * o1 + v1 * o2,
        }
    }

    // How many rows the block has.
    fn rows(self, shape: &Shape) -> usize
        ensures value { result ≡ block_rows shape.now self }
        ensures bound { result ≤ 65535 }
    {
        match self {
            Block::S | Block::T3 => shape.o1 as usize,
            Block::T1 | Block::T4 => shape.v1 as usize,
        }
    }
}

impl<R: Ring> SecretRun<'_, R> {
    // The entry i, j of a block, which stands in the run column by column.
    #[tactic(auto, unfolding(crate::specs::SecretKeys::block))]
    pub(crate) fn block_code(&self, block: Block, i: usize, j: usize) -> u8
        requires row { i < block_rows self.now.shape block }
        requires column { j < block_columns self.now.shape block }
        ensures { result ≡ block_of (R.Ring.ring self.now.ring.now).q self.now.run.now self.now.shape block i j }
    {
        let (start, rows) = (block.start(&self.shape), block.rows(&self.shape));
        read_code(self.ring, self.run, start + j * rows + i)
    }
}
