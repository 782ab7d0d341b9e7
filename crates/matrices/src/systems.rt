ghost use Rattle.std.specs.Prelude.{◌≡◌, ℕ, ◌+◌, ◌*◌, length, drop};
ghost use Rattle.algebra.specs.Systems.{Singular, unit_matrix};
ghost use Rattle.matrices.specs.Arrays.{LeftFrom, UnitsBeside, RightOf};
ghost use Rattle.matrices.specs.Linear.{Inverts, Room, LeftInverts, SolvesOne};

use super::elimination::{Dependent, eliminate};
use super::products::fills;
use fields::{Field, Ring};

// Solves A x = b for the `order` rows [A | b] of order + 1 codes, in place: the last column becomes x.
// None, and the rows as they were, where the length does not fit or some byte is no code. What the rows hold after a fault is open.
// The Option is apart from the Result, as in `eliminate`.
pub fn solve<F: Field>(field: &F, rows: &mut [u8], order: usize) -> Option<Result<(), Dependent>>
    ensures { SolvesOne (F.Ring.ring field.now) rows.old order result rows.new }
{
    eliminate(field, rows, order, 1)
}

// Writes the system into the left blocks of `order` rows of order + order places.
// Rows are cut by their places here and below, since `chunks_exact` takes no rows of width 0.
fn put_left(rows: &mut [u8], system: &[u8], order: usize)
    requires { Room rows.old order (length system.now) }
    ensures { LeftFrom system.now rows.new order order }
{
    let width = order + order;
    for i in 0..order {
        rows[i * width..i * width + order].copy_from_slice(&system[i * order..i * order + order]);
    }
}

// Writes the unit matrix into the right block of `order` rows of order + order places.
fn put_units(rows: &mut [u8], order: usize)
    requires { length rows.old ≡ order * (order + order) }
    ensures { UnitsBeside rows.old rows.new order order }
{
    let width = order + order;
    for i in 0..order {
        let start = i * width + order;
        let row = &mut rows[start..start + order];
        row.fill(0);
        row[i] = 1;
    }
}

// Reads the right block of `order` rows of order + order codes.
// The other way than `put_left`, between the same widths: one function for both would take seven parameters.
fn read_right(rows: &[u8], order: usize, block: &mut [u8])
    requires { Room rows.now order (length block.old) }
    ensures { RightOf rows.now block.new order order }
{
    let width = order + order;
    for i in 0..order {
        let start = i * width + order;
        block[i * order..i * order + order].copy_from_slice(&rows[start..start + order]);
    }
}

// Inverts the left block of rows that fit.
fn invert_rows<F: Field>(
    field: &F,
    rows: &mut [u8],
    order: usize,
    inverse: &mut [u8],
) -> Option<Result<(), Dependent>>
    requires { Room rows.old order (length inverse.old) }
    ensures { LeftInverts (F.Ring.ring field.now) rows.old order inverse.old result inverse.new }
{
    put_units(rows, order);
    let answer = eliminate(field, rows, order, order)?;
    if answer.is_ok() {
        read_right(rows, order, inverse);
    }
    Some(answer)
}

// Writes the inverse of the system, of `order` rows of `order` codes, into `inverse`, of as many; a fault leaves `inverse` as it was.
// None, and `inverse` as it was, where a length does not fit, some byte of the system is no code, or `work` has less than twice as many places as the system.
// What `work` holds afterwards is open; the places from twice the system's length on are as they were.
// The Option is apart from the Result, as in `eliminate`.
pub fn invert<F: Field>(
    field: &F,
    system: &[u8],
    order: usize,
    work: &mut [u8],
    inverse: &mut [u8],
) -> Option<Result<(), Dependent>>
    ensures inverse { Inverts (F.Ring.ring field.now) system.now order (length work.old) inverse.old result inverse.new }
    ensures rest { drop (2 * length system.now) work.new ≡ drop (2 * length system.now) work.old }
{
    if !fills(system.len(), order, order) || !fills(inverse.len(), order, order) {
        return None;
    }
    if work.len() / 2 < system.len() {
        return None;
    }
    let beside = &mut work[..2 * system.len()];
    put_left(beside, system, order);
    invert_rows(field, beside, order, inverse)
}

// Inverts A, the left block of the `order` rows of order + order places, and writes its inverse, row by row, into `inverse`.
// What the right blocks held does not count; what the rows hold afterwards is open. A fault leaves `inverse` as it was.
// None, and `inverse` as it was, where a length does not fit, which leaves the rows as they were too, or some byte of A is no code.
// The Option is apart from the Result, as in `eliminate`.
pub fn invert_left<F: Field>(
    field: &F,
    rows: &mut [u8],
    order: usize,
    inverse: &mut [u8],
) -> Option<Result<(), Dependent>>
    ensures inverse { LeftInverts (F.Ring.ring field.now) rows.old order inverse.old result inverse.new }
    ensures rows { (Room rows.old order (length inverse.old) → ⊥) → rows.new ≡ rows.old }
{
    let width = order.checked_add(order)?;
    if !fills(rows.len(), order, width) || !fills(inverse.len(), order, order) {
        return None;
    }
    invert_rows(field, rows, order, inverse)
}

// The unit matrix is not singular.
pub fn unit_is_regular<F: Field>(field: &F)
    ensures { (n : ℕ) → Singular (F.Ring.ring field.now) n unit_matrix → ⊥ }
{}
