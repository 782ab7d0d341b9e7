ghost use Rattle.std.specs.Prelude.{◌≡◌, ℕ, ◌+◌, ◌*◌, ◌^◌, ◌<◌, ◌≤◌};
ghost use Rattle.matrices.specs.QuadraticSystems.{pairs as pairs_of};
ghost use Rattle.keys.specs.Shapes.{variables, equations, layer_codes, layer_start, secret_codes, public_codes, place_length, key_workspace, sign_workspace, within};

use super::shapes::Shape;

// The largest shape; no number of a shape is 0.
const LARGEST: Shape = Shape {
    v1: 128,
    o1: 64,
    o2: 64,
};

// How many pairs i <= j of n variables there are.
pub fn pairs(n: u32) -> usize
    ensures value { result ≡ pairs_of n }
    ensures bound { n ≤ 196605 → result ≤ 2 ^ 35 }
{
    let n = n as usize;
    n * (n + 1) / 2
}

// The coefficients of a layer: o equations, each over the pairs of v variables and those of one of them with one of o.
fn layer_codes(v: usize, o: usize) -> usize
    requires variables { v ≤ 131070 }
    requires equations { o ≤ 65535 }
    ensures value { result ≡ layer_codes v o }
    ensures bound { result ≤ 2 ^ 52 }
{
    o * (pairs(v as u32) + v * o)
}

impl Shape {
    // Whether each number of the shape is within its limits.
    pub fn is_within(&self) -> bool
        ensures { result ≡ within self.now }
    {
        0 < self.v1
            && self.v1 <= LARGEST.v1
            && 0 < self.o1
            && self.o1 <= LARGEST.o1
            && 0 < self.o2
            && self.o2 <= LARGEST.o2
    }

    // n, the number of variables.
    pub fn variables(&self) -> usize
        ensures value { result ≡ variables self.now }
        ensures bound { result ≤ 196605 }
    {
        self.v1 as usize + self.o1 as usize + self.o2 as usize
    }

    // m, the number of equations.
    pub fn equations(&self) -> usize
        ensures value { result ≡ equations self.now }
        ensures bound { result ≤ 131070 }
    {
        self.o1 as usize + self.o2 as usize
    }

    // Where the coefficients of layer l begin.
    // The layer is a number, since every number has an answer.
    pub fn layer_start(&self, l: usize) -> usize
        ensures value { result ≡ layer_start self.now l }
        ensures bound { result ≤ 2 ^ 53 }
    {
        let (v1, o1, o2) = (self.v1 as usize, self.o1 as usize, self.o2 as usize);
        let masks = o1 * o2 + v1 * o1 + v1 * o2 + o1 * o2;
        if l <= 1 {
            masks
        } else {
            masks + layer_codes(v1, o1)
        }
    }

    // How many codes a secret key has after its head.
    pub fn secret_codes(&self) -> usize
        ensures value { result ≡ secret_codes self.now }
        ensures bound { result ≤ 2 ^ 54 }
    {
        let (v1, o1, o2) = (self.v1 as usize, self.o1 as usize, self.o2 as usize);
        self.layer_start(2) + layer_codes(v1 + o1, o2)
    }

    // How many codes a public key has after its head.
    pub fn public_codes(&self) -> usize
        ensures value { result ≡ public_codes self.now }
        ensures bound { result ≤ 2 ^ 54 }
    {
        pairs(self.variables() as u32) * self.equations()
    }

    // How many bytes of the strip a place has.
    pub fn place_len(&self) -> usize
        ensures value { result ≡ place_length self.now }
        ensures bound { result ≤ 2 ^ 33 }
    {
        let (v1, o1) = (self.v1 as usize, self.o1 as usize);
        v1 + o1 + o1 * o1
    }

    // How many bytes of workspace the making of a public key takes.
    pub fn key_workspace(&self) -> usize
        ensures { result ≡ key_workspace self.now }
    {
        let n = self.variables();
        3 * n * n
    }

    // How many bytes of workspace a preparation or a signature takes.
    pub fn sign_workspace(&self) -> usize
        ensures { result ≡ sign_workspace self.now }
    {
        let o = (self.o1 as usize).max(self.o2 as usize);
        self.variables() + self.equations() + 2 * o * o
    }
}
