ghost use Rattle.std.specs.Prelude.{◌≡◌, ℕ, ◌+◌, ◌*◌, ◌^◌, ◌<◌, ◌≤◌, ◌⊎◌, List, length, slice_index};
ghost use Rattle.algebra.specs.Matrices.{folded};
ghost use Rattle.algebra.specs.Sums.{sum};
ghost use Rattle.fields.specs.Packing.{code_at, packed_length};
ghost use Rattle.matrices.specs.Arrays.{entry};
ghost use Rattle.matrices.specs.QuadraticSystems.{pairs as pairs_of, pair_at};
ghost use Rattle.maps.specs.PublicKeys.{HasPlace, CodePut, FormPut, RowMixed, Mixed};

use super::central::pair_place;
use fields::{Ring, read_codes, write_code};
use matrices::{apply, zeros};

// Writes one code of a run that has a place for it.
#[tactic(auto, using(fields::proofs::Runs::put_there, fields::proofs::Runs::put_other, fields::proofs::Runs::byte_within))]
fn put_code<R: Ring>(ring: &R, run: &mut [u8], k: usize, code: u8)
    requires code { code < (R.Ring.ring ring.now).q }
    requires place { HasPlace (R.Ring.ring ring.now).q run.old k }
    ensures { CodePut (R.Ring.ring ring.now).q run.old run.new k code }
{
    write_code(ring, run, k, code);
}

// The entry i, j, i <= j, of the upper triangular matrix of the form of a square matrix.
#[tactic(auto, unfolding(algebra::specs::Matrices::folded))]
fn folded_code<R: Ring>(ring: &R, matrix: &[u8], n: usize, i: usize, j: usize) -> u8
    requires length { length matrix.now ≡ n * n }
    requires order { i ≤ j }
    requires inside { j < n }
    ensures { result ≡ folded (R.Ring.ring ring.now) (entry matrix.now n) i j }
{
    let above = matrix[i * n + j];
    if i < j {
        ring.sum(above, matrix[j * n + i])
    } else {
        above
    }
}

// Writes the code of equation f for each pair i <= j with this i, by j, from the form of a square matrix of codes.
#[tactic(auto, using(crate::proofs::Publishing::folded_code, crate::proofs::Publishing::pair_there, crate::proofs::Publishing::form_next))]
// By i and j, since they say the place of a pair; the run is lent as it is, since a struct around a `&mut` slice owes a clause on the borrow in every method.
fn put_form_row<R: Ring>(
    ring: &R,
    matrix: &[u8],
    n: usize,
    m: usize,
    f: usize,
    i: usize,
    public: &mut [u8],
)
    requires variables { n ≤ 256 }
    requires equations { m ≤ 128 }
    requires equation { f < m }
    requires row { i < n }
    requires matrix { length matrix.now ≡ n * n }
    requires room { length public.old ≡ packed_length (R.Ring.ring ring.now).q (pairs_of n * m) }
    requires codes { (i j : ℕ) → i < n → j < n → entry matrix.now n i j < (R.Ring.ring ring.now).q }
    ensures { (first : List ℕ) → FormPut (R.Ring.ring ring.now).q n m f (pair_at n i i) (folded (R.Ring.ring ring.now) (entry matrix.now n)) first public.old → FormPut (R.Ring.ring ring.now).q n m f (pair_at n i n) (folded (R.Ring.ring ring.now) (entry matrix.now n)) first public.new }
{
    for j in i..n {
        let place = pair_place(n, i, j) * m + f;
        put_code(ring, public, place, folded_code(ring, matrix, n, i, j));
    }
}

// Writes the code of equation f for each pair i <= j, by i, then j, from the form of a square matrix of codes.
#[tactic(auto, using(crate::proofs::Publishing::form_none, crate::proofs::Publishing::pair_turn, crate::proofs::Publishing::pair_last))]
pub(crate) fn put_form<R: Ring>(
    ring: &R,
    matrix: &[u8],
    n: usize,
    m: usize,
    f: usize,
    public: &mut [u8],
)
    requires variables { n ≤ 256 }
    requires equations { m ≤ 128 }
    requires equation { f < m }
    requires matrix { length matrix.now ≡ n * n }
    requires room { length public.old ≡ packed_length (R.Ring.ring ring.now).q (pairs_of n * m) }
    requires codes { (i j : ℕ) → i < n → j < n → entry matrix.now n i j < (R.Ring.ring ring.now).q }
    ensures { FormPut (R.Ring.ring ring.now).q n m f (pairs_of n) (folded (R.Ring.ring ring.now) (entry matrix.now n)) public.old public.new }
{
    for i in 0..n {
        put_form_row(ring, matrix, n, m, f, i, public);
    }
}

// Writes the codes of a row from a place on.
#[tactic(auto, using(crate::proofs::Publishing::packed_more))]
fn put_row<R: Ring>(ring: &R, public: &mut [u8], at: usize, codes: &[u8])
    requires end { at + length codes.now < 2 ^ 64 }
    requires room { packed_length (R.Ring.ring ring.now).q (at + length codes.now) ≤ length public.old }
    requires codes { (k : ℕ) → slice_index codes.now k < (R.Ring.ring ring.now).q }
    ensures done { (e : ℕ) → e < length codes.now → code_at (R.Ring.ring ring.now).q public.new (at + e) ≡ slice_index codes.now e }
    ensures kept { (k : ℕ) → (k < at) ⊎ (at + length codes.now ≤ k) → code_at (R.Ring.ring ring.now).q public.new k ≡ code_at (R.Ring.ring ring.now).q public.old k }
{
    for (e, &code) in codes.iter().enumerate() {
        put_code(ring, public, at + e, code);
    }
}

// Multiplies the m codes from a place on by a matrix.
#[tactic(auto, using(crate::proofs::Mixing::zeros_part))]
fn mix_row<R: Ring>(ring: &R, mask: &[u8], m: usize, at: usize, public: &mut [u8])
    requires equations { m ≤ 128 }
    requires mask { length mask.now ≡ m * m }
    requires end { at + m < 2 ^ 64 }
    requires room { packed_length (R.Ring.ring ring.now).q (at + m) ≤ length public.old }
    ensures { RowMixed (R.Ring.ring ring.now) m at (entry mask.now m) public.old public.new }
{
    let mut x = zeros();
    let x = &mut x[0..m];
    read_codes(ring, public, at, x);
    let mut y = zeros();
    let y = &mut y[0..m];
    apply(ring, mask, x, y).unwrap();
    put_row(ring, public, at, y);
}

// Multiplies the m codes of each of the pairs by a matrix.
#[tactic(auto, using(crate::proofs::Publishing::mixed_next, crate::proofs::Publishing::packed_more, matrices::proofs::RowWrites::row_below))]
// By the number of the pair, since the run is packed and has no slices of codes.
pub(crate) fn mix<R: Ring>(ring: &R, mask: &[u8], m: usize, pairs: usize, public: &mut [u8])
    requires equations { m ≤ 128 }
    requires pairs { pairs ≤ 32896 }
    requires mask { length mask.now ≡ m * m }
    requires room { packed_length (R.Ring.ring ring.now).q (pairs * m) ≤ length public.old }
    ensures { Mixed (R.Ring.ring ring.now) m pairs (entry mask.now m) public.old public.new }
{
    for t in 0..pairs {
        mix_row(ring, mask, m, t * m, public);
    }
}
