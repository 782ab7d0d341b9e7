ghost use Rattle.std.specs.Prelude.{◌≡◌, ℕ, ◌+◌, ◌*◌, ◌<◌, ◌≤◌, length};
ghost use Rattle.maps.specs.SecretKeys.{LayerRow};

use super::central::{group_size, in_terms, term_place};
use super::secrets::SecretRun;
use fields::{Misfit, Ring, read_codes};

impl<R: Ring> SecretRun<'_, R> {
    // Reads the coefficients of x(i) x(j) in the equations of a layer, one for each; 0 where the layer has no such term.
    // A misfit where there is no such layer or variable or the row has not a place for each equation.
    #[tactic(auto, using(crate::proofs::LayerRows::row_there, crate::proofs::LayerRows::row_none, fields::proofs::Runs::get_or_from))]
    pub fn layer_row(&self, layer: usize, i: usize, j: usize, row: &mut [u8]) -> Result<(), Misfit>
        ensures { LayerRow (R.Ring.ring self.now.ring.now).q self.now.run.now self.now.shape layer i j row.old result row.new }
    {
        let shape = &self.shape;
        let equations = group_size(shape, layer);
        if layer == 0 || layer > 2 || j >= shape.variables() || row.len() != equations {
            return Err(Misfit);
        }
        if in_terms(shape, layer, i, j) {
            let at = shape.layer_start(layer) + term_place(shape, layer, i, j) * equations;
            read_codes(self.ring, self.run, at, row);
        } else {
            row.fill(0);
        }
        Ok(())
    }
}
