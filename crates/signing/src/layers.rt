ghost use Rattle.std.specs.Prelude.{◌≡◌, ℕ, ◌*◌, ◌<◌, ◌≤◌, length, Decides, slice_index};
ghost use Rattle.maps.specs.SecretKeys.{group_size, RowFits};
ghost use Rattle.signing.specs.Layers.{layer_forms, system_entry, pairs_from, LayerAt, ConstantsFormed, SystemFormed, ColumnPut};

use fields::{Misfit, Ring};
use maps::{SecretRun, group_size, group_start};
use matrices::{MOST, fills, zeros};

// A layer's number is 1 or 2. It is a number, since groups of variables are compared with it, and every number has an answer.
const LAYERS: usize = 2;

// A layer of a secret key, by its number, and values for the variables before its own.
#[derive(Drop)]
pub struct Layer<'a, R> {
    pub secret: &'a SecretRun<'a, R>,
    pub number: usize,
    pub x: &'a [u8],
}

// Writes a column of rows.
pub(crate) fn put_column(rows: &mut [u8], width: usize, c: usize, column: &[u8])
    requires lens { length rows.old ≡ length column.now * width }
    requires inside { c < width }
    ensures { ColumnPut width c (length column.now) (λ r. slice_index column.now r) rows.old rows.new }
{
    for (r, &code) in column.iter().enumerate() {
        rows[r * width + c] = code;
    }
}

impl<R: Ring> Layer<'_, R> {
    // How many equations the layer has.
    fn equations(&self) -> usize
        ensures value { result ≡ group_size self.now.secret.now.shape self.now.number }
        ensures bound { result ≤ 65535 }
    {
        group_size(&self.secret.shape, self.number)
    }

    // Whether there is such a layer, and x has a value for each variable before its own.
    fn is_there(&self) -> bool
        ensures { Decides result (LayerAt self.now.secret.now.shape self.now.number self.now.x.now) }
    {
        0 < self.number
            && self.number <= LAYERS
            && self.equations() <= MOST
            && self.x.len() == group_start(&self.secret.shape, self.number)
    }

    // Reads the coefficients of x(i) x(j) in the layer's equations.
    fn read_row(&self, i: usize, j: usize, row: &mut [u8])
        requires { RowFits self.now.secret.now.shape self.now.number j (length row.old) }
        ensures { (r : ℕ) → r < group_size self.now.secret.now.shape self.now.number → slice_index row.new r ≡ layer_forms (R.Ring.ring self.now.secret.now.ring.now).q self.now.secret.now.run.now self.now.secret.now.shape self.now.number r i j }
    {
        self.secret.layer_row(self.number, i, j, row).unwrap();
    }

    // Adds to each sum what the pairs of x(i) with itself and later values give in its equation; `row` holds anything afterwards.
    fn add_pairs(&self, i: usize, row: &mut [u8], sums: &mut [u8])
        requires layer { LayerAt self.now.secret.now.shape self.now.number self.now.x.now }
        requires inside { i < length self.now.x.now }
        requires row_len { length row.old ≡ group_size self.now.secret.now.shape self.now.number }
        requires sums_len { length sums.old ≡ group_size self.now.secret.now.shape self.now.number }
        requires codes { (r : ℕ) → slice_index sums.old r < (R.Ring.ring self.now.secret.now.ring.now).q }
        ensures { (r : ℕ) → r < group_size self.now.secret.now.shape self.now.number → slice_index sums.new r ≡ (R.Ring.ring self.now.secret.now.ring.now).add (slice_index sums.old r) (pairs_from (R.Ring.ring self.now.secret.now.ring.now) (layer_forms (R.Ring.ring self.now.secret.now.ring.now).q self.now.secret.now.run.now self.now.secret.now.shape self.now.number) self.now.x.now r i) }
    {
        let ring = self.secret.ring;
        for j in i..self.x.len() {
            self.read_row(i, j, row);
            ring.add_multiple(sums, ring.product(self.x[i], self.x[j]), row);
        }
    }

    // The constants of the layer's system at x: what the pairs of the variables before its own give, one for each equation.
    // A misfit, and the constants as they were, where there is no such layer or a length does not fit.
    pub fn constants(&self, constants: &mut [u8]) -> Result<(), Misfit>
        ensures { ConstantsFormed (R.Ring.ring self.now.secret.now.ring.now) self.now.secret.now.run.now self.now.secret.now.shape self.now.number self.now.x.now constants.old result constants.new }
    {
        let equations = self.equations();
        if !self.is_there() || constants.len() != equations {
            return Err(Misfit);
        }
        let mut buffer = zeros();
        let row = &mut buffer[0..equations];
        constants.fill(0);
        for i in 0..self.x.len() {
            self.add_pairs(i, row, constants);
        }
        Ok(())
    }

    // The coefficients of the layer's variable c in its equations, once x has replaced those before; `row` holds anything afterwards.
    fn sum_column(&self, c: usize, row: &mut [u8], column: &mut [u8])
        requires layer { LayerAt self.now.secret.now.shape self.now.number self.now.x.now }
        requires inside { c < group_size self.now.secret.now.shape self.now.number }
        requires row_len { length row.old ≡ group_size self.now.secret.now.shape self.now.number }
        requires column_len { length column.old ≡ group_size self.now.secret.now.shape self.now.number }
        ensures { (r : ℕ) → r < group_size self.now.secret.now.shape self.now.number → slice_index column.new r ≡ system_entry (R.Ring.ring self.now.secret.now.ring.now) self.now.secret.now.run.now self.now.secret.now.shape self.now.number (λ i. slice_index self.now.x.now i) r c }
    {
        let j = self.x.len() + c;
        column.fill(0);
        for (i, &value) in self.x.iter().enumerate() {
            self.read_row(i, j, row);
            self.secret.ring.add_multiple(column, value, row);
        }
    }

    // Writes the layer's system at x into the first columns of rows of a width; all other places stay as they are.
    // A misfit, and the rows as they were, where there is no such layer or a length does not fit.
    pub fn system(&self, width: usize, rows: &mut [u8]) -> Result<(), Misfit>
        ensures { SystemFormed (R.Ring.ring self.now.secret.now.ring.now) self.now.secret.now.run.now self.now.secret.now.shape self.now.number self.now.x.now width rows.old result rows.new }
    {
        let columns = self.equations();
        if !self.is_there() || width < columns || !fills(rows.len(), columns, width) {
            return Err(Misfit);
        }
        let mut buffer = zeros();
        let row = &mut buffer[0..columns];
        let mut sums = zeros();
        let column = &mut sums[0..columns];
        for c in 0..columns {
            self.sum_column(c, row, column);
            put_column(rows, width, c, column);
        }
        Ok(())
    }
}
