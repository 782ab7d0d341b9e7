ghost use Rattle.std.specs.Prelude.{◌≡◌, ◌≢◌, ℕ, ◌*◌, ◌<◌, length, ◌==◌, slice_index, MatchResult};
ghost use Rattle.algebra.specs.Sums.{dot_of};
ghost use Rattle.matrices.specs.Arrays.{entry, ColumnOf};
ghost use Rattle.matrices.specs.MatrixProducts.{Applied, Multiplied, TransposedMultiplied};

use super::dots::dot;
use super::forms::{MOST, zeros};
use fields::{Misfit, Ring};

// Whether `rows` rows of `columns` codes fill `len` places.
pub fn fills(len: usize, rows: usize, columns: usize) -> bool
    ensures { result ≡ (len == rows * columns) }
{
    rows.checked_mul(columns) == Some(len)
}

// Err where `rows` rows of `columns` codes fill another number of places.
fn fit(len: usize, rows: usize, columns: usize) -> Result<(), Misfit>
    ensures { MatchResult result (λ _. len ≡ rows * columns) (λ _. len ≢ rows * columns) }
{
    fills(len, rows, columns).then_some(()).ok_or(Misfit)
}

// The matrix times the vector: a row for each place of `image`, a column for each of `vector`.
// Err, and `image` as it was, where the matrix has not as many codes.
// Rows are cut by their places, here and below, since `chunks_exact` takes no rows of width 0.
pub fn apply<R: Ring>(
    ring: &R,
    matrix: &[u8],
    vector: &[u8],
    image: &mut [u8],
) -> Result<(), Misfit>
    ensures { Applied (R.Ring.ring ring.now) matrix.now vector.now image.old result image.new }
{
    let width = vector.len();
    fit(matrix.len(), image.len(), width)?;
    for (i, place) in image.iter_mut().enumerate() {
        *place = dot(ring, &matrix[i * width..i * width + width], vector);
    }
    Ok(())
}

// The sum of the rows of `b`, each times its factor. A row whose factor is 0 is not read.
fn combine<R: Ring>(ring: &R, factors: &[u8], b: &[u8], row: &mut [u8])
    requires { length b.now ≡ length factors.now * length row.old }
    ensures { (j : ℕ) → j < length row.old → slice_index row.new j ≡ dot_of (R.Ring.ring ring.now) (length factors.now) (λ t. slice_index factors.now t) (λ t. entry b.now (length row.old) t j) }
{
    row.fill(0);
    let width = row.len();
    for (k, &factor) in factors.iter().enumerate() {
        if factor != 0 {
            ring.add_multiple(row, factor, &b[k * width..k * width + width]);
        }
    }
}

// The product of `a`, of `rows` rows of `inner` codes, and `b`, of `inner` rows of `columns` codes.
// Err, and `product` as it was, where a length does not fit.
pub fn multiply<R: Ring>(
    ring: &R,
    a: &[u8],
    b: &[u8],
    rows: usize,
    inner: usize,
    columns: usize,
    product: &mut [u8],
) -> Result<(), Misfit>
    ensures { Multiplied (R.Ring.ring ring.now) a.now b.now rows inner columns product.old result product.new }
{
    fit(a.len(), rows, inner)?;
    fit(b.len(), inner, columns)?;
    fit(product.len(), rows, columns)?;
    for i in 0..rows {
        let factors = &a[i * inner..i * inner + inner];
        let start = i * columns;
        combine(ring, factors, b, &mut product[start..start + columns]);
    }
    Ok(())
}

// Reads place `at` of each row of `width` codes, for as many rows as `column` has places; past the end stands 0.
pub fn read_column(rows: &[u8], width: usize, at: usize, column: &mut [u8])
    ensures { ColumnOf rows.now width at (length column.old) column.new }
{
    let mut rest = rows;
    for code in column.iter_mut() {
        *code = rest.get(at).copied().unwrap_or(0);
        rest = &rest[width.min(rest.len())..];
    }
}

// The product of the transpose of `a`, of `inner` rows of `rows` codes, and `b`, of `inner` rows of `columns` codes.
// Err, and `product` as it was, where a length does not fit or `inner` is more than MOST.
#[tactic(auto, using(crate::proofs::RowWrites::row_room))]
pub fn multiply_transposed<R: Ring>(
    ring: &R,
    a: &[u8],
    b: &[u8],
    rows: usize,
    inner: usize,
    columns: usize,
    product: &mut [u8],
) -> Result<(), Misfit>
    ensures { TransposedMultiplied (R.Ring.ring ring.now) a.now b.now rows inner columns product.old result product.new }
{
    fit(a.len(), inner, rows)?;
    fit(b.len(), inner, columns)?;
    fit(product.len(), rows, columns)?;
    if inner > MOST {
        return Err(Misfit);
    }
    let mut buffer = zeros();
    let factors = &mut buffer[0..inner];
    for i in 0..rows {
        read_column(a, rows, i, factors);
        let start = i * columns;
        combine(ring, factors, b, &mut product[start..start + columns]);
    }
    Ok(())
}
