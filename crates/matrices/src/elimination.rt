ghost use Rattle.std.specs.Prelude.{◌≡◌, ℕ, ◌+◌, ◌*◌, ◌<◌, ◌≤◌, ◌⊎◌, List, length, slice_index};
ghost use Rattle.matrices.specs.Arrays.{Codes, Sifted, Apart, Swapped, Added, Cleared};
ghost use Rattle.matrices.specs.Linear.{Fits, Pivoted, Reduced, Eliminated, Determined, FaultsAreSingular};

use super::products::fills;
use fields::{Field, Ring};

// The first column, counted from 1, that depends on those before it.
#[derive(Clone, Copy, PartialEq, Eq, Debug)]
pub struct Dependent {
    pub column: usize,
}

// A row that is not zero in a column, and the inverse of what stands there.
#[derive(Clone, Copy)]
struct Lead {
    row: usize,
    inverse: u8,
}

// Whether every byte is a code.
fn all_codes<R: Ring>(ring: &R, rows: &[u8]) -> bool
    ensures { Sifted (R.Ring.ring ring.now) rows.now result }
{
    let q = ring.size();
    rows.iter().all(|&code| (code as u16) < q)
}

// Changes the `width` codes from `a` on with those from `b` on.
// The rows, their width and places are parameters: a struct that holds a `&mut` slice owes a clause on what the borrow leaves in every method.
fn swap_rows(rows: &mut [u8], width: usize, a: usize, b: usize)
    requires order { (a ≡ b) ⊎ (a + width ≤ b) }
    requires inside { b + width ≤ length rows.old }
    ensures { Swapped rows.old rows.new width a b }
{
    if a < b {
        let (above, below) = rows.split_at_mut(b);
        above[a..a + width].swap_with_slice(&mut below[..width]);
    }
}

// Multiplies each code of a row.
fn scale<R: Ring>(ring: &R, row: &mut [u8], factor: u8)
    ensures { (j : ℕ) → j < length row.old → slice_index row.new j ≡ (R.Ring.ring ring.now).mul factor (slice_index row.old j) }
{
    for code in row.iter_mut() {
        *code = ring.product(factor, *code);
    }
}

// Adds `factor` times the `width` codes from `from` on to those from `to` on.
fn add_row<R: Ring>(ring: &R, rows: &mut [u8], width: usize, to: usize, from: usize, factor: u8)
    requires inside { (to + width ≤ length rows.old) × (from + width ≤ length rows.old) }
    requires apart { Apart to from width }
    ensures { Added (R.Ring.ring ring.now) rows.old rows.new width to from factor }
{
    if to < from {
        let (above, below) = rows.split_at_mut(from);
        ring.add_multiple(&mut above[to..to + width], factor, &below[..width]);
    } else {
        let (above, below) = rows.split_at_mut(to);
        ring.add_multiple(&mut below[..width], factor, &above[from..from + width]);
    }
}

// A row from row `column` on that is not zero in that column; which of them is open.
// A `for`: of `find_map` it did not prove that a None has looked at every row.
fn pivot<F: Field>(
    field: &F,
    rows: &[u8],
    order: usize,
    width: usize,
    column: usize,
) -> Option<Lead>
    requires places { length rows.now ≡ order * width }
    requires inside { column < width }
    requires codes { Codes (F.Ring.ring field.now) rows.now }
    ensures { Pivoted (F.Ring.ring field.now) rows.now order width column column result }
{
    for row in column..order {
        if let Some(inverse) = field.inverse(rows[row * width + column]) {
            return Some(Lead { row, inverse });
        }
    }
    None
}

// Takes from each of the rows from `first` up to `last` its entry in column `column` times row `column`, which is none of them.
// By the rows' numbers, since two rows of the array are read and written at once.
fn clear_rows<R: Ring>(
    ring: &R,
    rows: &mut [u8],
    width: usize,
    column: usize,
    first: usize,
    last: usize,
)
    requires column { column < width }
    requires pivot { column * width + width ≤ length rows.old }
    requires inside { last * width ≤ length rows.old }
    requires apart { (last ≤ column) ⊎ (column < first) }
    ensures { (begun : List ℕ) → Cleared (R.Ring.ring ring.now) begun rows.old first width column → first ≤ last → Cleared (R.Ring.ring ring.now) begun rows.new last width column }
{
    for row in first..last {
        let factor = ring.negative(rows[row * width + column]);
        add_row(ring, rows, width, row * width, column * width, factor);
    }
}

// Takes from each row but row `column` its entry in that column times row `column`.
// First the rows above, then those below: over all of them in one loop the compiler could not see that rows written never overlap the one that is read.
fn clear_column<R: Ring>(ring: &R, rows: &mut [u8], order: usize, width: usize, column: usize)
    requires places { length rows.old ≡ order * width }
    requires inside { (column < order) × (column < width) }
    ensures { Cleared (R.Ring.ring ring.now) rows.old rows.new order width column }
{
    clear_rows(ring, rows, width, column, 0, column);
    clear_rows(ring, rows, width, column, column + 1, order);
}

// Brings one column after the other to that of the unit matrix.
fn reduce<F: Field>(field: &F, rows: &mut [u8], order: usize, right: usize) -> Result<(), Dependent>
    requires { Fits (F.Ring.ring field.now) rows.old order right }
    ensures { Reduced (F.Ring.ring field.now) rows.old order right result rows.new }
{
    let width = order + right;
    for column in 0..order {
        let Some(found) = pivot(field, rows, order, width, column) else {
            return Err(Dependent { column: column + 1 });
        };
        let start = column * width;
        swap_rows(rows, width, start, found.row * width);
        scale(field, &mut rows[start..start + width], found.inverse);
        clear_column(field, rows, order, width, column);
    }
    Ok(())
}

// Solves A X = B for the `order` rows [A | B] of order + right codes, in place: A becomes the unit matrix and B becomes X.
// None, and the rows as they were, where the length does not fit or some byte is no code. What the rows hold after a fault is open.
// The Option says whether the rows are a system, the Result what the system answers: where the lengths fit, `unwrap()?` takes the one and passes the other on.
pub fn eliminate<F: Field>(
    field: &F,
    rows: &mut [u8],
    order: usize,
    right: usize,
) -> Option<Result<(), Dependent>>
    ensures { Eliminated (F.Ring.ring field.now) rows.old order right result rows.new }
{
    let width = order.checked_add(right)?;
    if !fills(rows.len(), order, width) || !all_codes(field, rows) {
        return None;
    }
    Some(reduce(field, rows, order, right))
}

// What `eliminate` ensures leaves it one answer.
pub fn answer_is_fixed<F: Field>(field: &F)
    ensures { Determined (F.Ring.ring field.now) }
{}

// What `eliminate` ensures: it solves exactly the systems that are not singular.
pub fn fault_is_singular<F: Field>(field: &F)
    ensures { FaultsAreSingular (F.Ring.ring field.now) }
{}
