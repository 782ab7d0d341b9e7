ghost use Rattle.std.specs.Prelude.{◌≡◌, ℕ, ◌*◌, ◌<◌, length, slice_index};
ghost use Rattle.matrices.specs.Arrays.{entry};

// Writes each place of a row from its number.
pub(crate) fn fill_row<F: Fn(usize) -> u8>(row: &mut [u8], code: F)
    requires { (j : ℕ) → j < length row.old → F.pre code j }
    ensures { (j : ℕ) → j < length row.old → F.post code j (slice_index row.new j) }
{
    for (j, place) in row.iter_mut().enumerate() {
        *place = code(j);
    }
}

// Writes n rows of n codes, each code from the numbers of its row and its column.
// Rows are cut by their places, since `chunks_exact_mut` takes no rows of width 0.
pub(crate) fn fill_square<F: Fn(usize, usize) -> u8>(matrix: &mut [u8], n: usize, code: F)
    requires length { length matrix.old ≡ n * n }
    requires calls { (i j : ℕ) → i < n → j < n → F.pre code i j }
    ensures { (i j : ℕ) → i < n → j < n → F.post code i j (entry matrix.new n i j) }
{
    for i in 0..n {
        fill_row(
            &mut matrix[i * n..i * n + n],
            |j|
                requires { F.pre code i j }
                ensures { F.post code i j result }
            { code(i, j) },
        );
    }
}
