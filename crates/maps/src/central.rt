ghost use Rattle.std.specs.Prelude.{◌≡◌, ℕ, ◌+◌, ◌-◌, ◌*◌, ◌^◌, ◌<◌, ◌≤◌, true, length};
ghost use Rattle.matrices.specs.Arrays.{entry};
ghost use Rattle.matrices.specs.QuadraticSystems.{pairs as pairs_of, pair_at};
ghost use Rattle.keys.specs.Shapes.{variables, equations};
ghost use Rattle.maps.specs.SecretKeys.{group_size, group_start, group_end, group_of, layer_of, in_layer, terms_before, term_place, in_terms, has_term, central_place, central};

use super::secrets::SecretRun;
use super::squares::fill_square;
use fields::{Ring, read_code};
use keys::{Shape, pairs};

// How many variables group k has: group 0 is V1, group l the oil variables of layer l.
// Groups and layers are numbers, since they are compared and counted with, and every number may be asked for.
pub fn group_size(shape: &Shape, k: usize) -> usize
    ensures value { result ≡ group_size shape.now k }
    ensures bound { result ≤ 65535 }
{
    match k {
        0 => shape.v1 as usize,
        1 => shape.o1 as usize,
        _ => shape.o2 as usize,
    }
}

// How many variables the groups before group k have.
pub fn group_start(shape: &Shape, k: usize) -> usize
    ensures value { result ≡ group_start shape.now k }
    ensures bound { result ≤ 131070 }
{
    match k {
        0 => 0,
        1 => shape.v1 as usize,
        _ => shape.v1 as usize + shape.o1 as usize,
    }
}

// How many variables the groups up to group k have.
fn group_end(shape: &Shape, k: usize) -> usize
    ensures value { result ≡ group_end shape.now k }
    ensures bound { result ≤ 196605 }
{
    group_start(shape, k) + group_size(shape, k)
}

// The group of variable i.
fn group_of(shape: &Shape, i: usize) -> usize
    ensures { result ≡ group_of shape.now i }
{
    if i < shape.v1 as usize {
        0
    } else if i < shape.v1 as usize + shape.o1 as usize {
        1
    } else {
        2
    }
}

// The layer of equation f.
fn layer_of(shape: &Shape, f: usize) -> usize
    ensures { result ≡ layer_of shape.now f }
{
    if f < shape.o1 as usize { 1 } else { 2 }
}

// The number of equation f within its layer.
fn in_layer(shape: &Shape, f: usize) -> usize
    ensures { result ≡ in_layer shape.now f }
{
    if f < shape.o1 as usize {
        f
    } else {
        f - shape.o1 as usize
    }
}

// The place of the pair i <= j among those of n variables.
#[tactic(auto, using(crate::proofs::Groups::rows_closed), unfolding(matrices::specs::QuadraticSystems::pair_at))]
pub(crate) fn pair_place(n: usize, i: usize, j: usize) -> usize
    requires order { i ≤ j }
    requires inside { j < n }
    requires few { n ≤ 65535 }
    ensures value { result ≡ pair_at n i j }
    ensures bound { result ≤ 2 ^ 33 }
{
    i * (2 * n - i + 1) / 2 + (j - i)
}

// How many terms of layer l have their first variable in group a.
fn terms_from(shape: &Shape, l: usize, a: usize) -> usize
    requires { a ≤ l }
    ensures value { result ≡ pairs_of (group_size shape.now a) + group_size shape.now a * (group_end shape.now l - group_end shape.now a) }
    ensures bound { result ≤ 2 ^ 36 }
{
    let size = group_size(shape, a);
    pairs(size as u32) + size * (group_end(shape, l) - group_end(shape, a))
}

// How many terms of layer l have their first variable in a group before a.
#[tactic(auto, unfolding(crate::specs::SecretKeys::terms_before))]
fn terms_before(shape: &Shape, l: usize, a: usize) -> usize
    requires order { a ≤ l }
    requires groups { a ≤ 2 }
    ensures value { result ≡ terms_before shape.now l a }
    ensures bound { result ≤ 2 ^ 37 }
{
    match a {
        0 => 0,
        1 => terms_from(shape, l, 0),
        _ => terms_from(shape, l, 0) + terms_from(shape, l, 1),
    }
}

// The place of a term among those with their first variable in group a, where its second is in a later group b; each variable by its number in its group.
fn across_place(shape: &Shape, a: usize, b: usize, i: usize, j: usize) -> usize
    requires order { a < b }
    requires groups { b ≤ 2 }
    requires first { i < group_size shape.now a }
    requires second { j < group_size shape.now b }
    ensures value { result ≡ pairs_of (group_size shape.now a) + group_size shape.now a * (group_start shape.now b - group_end shape.now a) + i * group_size shape.now b + j }
    ensures bound { result ≤ 2 ^ 37 }
{
    let size = group_size(shape, a);
    let parts = pairs(size as u32) + size * (group_start(shape, b) - group_end(shape, a));
    parts + i * group_size(shape, b) + j
}

// The place of the term x(i) x(j) among those of layer l.
#[tactic(auto, unfolding(crate::specs::SecretKeys::term_place))]
pub(crate) fn term_place(shape: &Shape, l: usize, i: usize, j: usize) -> usize
    requires order { i ≤ j }
    requires inside { j < variables shape.now }
    requires layer { group_of shape.now i ≤ l }
    ensures value { result ≡ term_place shape.now l (group_of shape.now i) (group_of shape.now j) i j }
    ensures bound { result ≤ 2 ^ 38 }
{
    let (a, b) = (group_of(shape, i), group_of(shape, j));
    let (row, column) = (i - group_start(shape, a), j - group_start(shape, b));
    let before = terms_before(shape, l, a);
    if a == b {
        before + pair_place(group_size(shape, a), row, column)
    } else {
        before + across_place(shape, a, b, row, column)
    }
}

// Whether layer l has terms x(i) x(j).
pub(crate) fn in_terms(shape: &Shape, l: usize, i: usize, j: usize) -> bool
    ensures { result ≡ in_terms shape.now l i j }
{
    i <= j && group_of(shape, j) <= l && group_of(shape, i) < l
}

// Whether the central equation f has a term x(i) x(j).
fn has_term(shape: &Shape, f: usize, i: usize, j: usize) -> bool
    ensures { result ≡ has_term shape.now f i j }
{
    in_terms(shape, layer_of(shape, f), i, j)
}

// Where the coefficient of x(i) x(j) in the central equation f stands in the run.
#[tactic(auto, unfolding(crate::specs::SecretKeys::central_place))]
fn central_place(shape: &Shape, f: usize, i: usize, j: usize) -> usize
    requires term { has_term shape.now f i j ≡ true }
    requires equation { f < equations shape.now }
    requires variable { j < variables shape.now }
    ensures { result ≡ central_place shape.now f i j }
{
    let l = layer_of(shape, f);
    let equations = group_size(shape, l);
    shape.layer_start(l) + term_place(shape, l, i, j) * equations + in_layer(shape, f)
}

impl<R: Ring> SecretRun<'_, R> {
    // The coefficient of x(i) x(j) in the central equation f.
    #[tactic(auto, unfolding(crate::specs::SecretKeys::central))]
    fn central_code(&self, f: usize, i: usize, j: usize) -> u8
        requires equation { f < equations self.now.shape }
        requires variable { j < variables self.now.shape }
        ensures { result ≡ central (R.Ring.ring self.now.ring.now).q self.now.run.now self.now.shape f i j }
    {
        if has_term(&self.shape, f, i, j) {
            read_code(self.ring, self.run, central_place(&self.shape, f, i, j))
        } else {
            0
        }
    }

    // Writes the coefficient matrix of the central equation f, row by row; 0 where it has no term.
    pub(crate) fn fill_central(&self, f: usize, matrix: &mut [u8])
        requires equation { f < equations self.now.shape }
        requires length { length matrix.old ≡ variables self.now.shape * variables self.now.shape }
        ensures { (i j : ℕ) → i < variables self.now.shape → j < variables self.now.shape → entry matrix.new (variables self.now.shape) i j ≡ central (R.Ring.ring self.now.ring.now).q self.now.run.now self.now.shape f i j }
    {
        fill_square(
            matrix,
            self.shape.variables(),
            |i, j|
                requires { (f < equations self.now.shape) × (j < variables self.now.shape) }
                ensures { result ≡ central (R.Ring.ring self.entry.now.ring.now).q self.entry.now.run.now self.entry.now.shape f i j }
            { self.central_code(f, i, j) },
        );
    }
}
