ghost use Rattle.std.specs.Prelude.{◌≡◌, true, false, MatchOption};
ghost use Rattle.keys.specs.Shapes.{within};

use keys::Shape;

// The codes of a secret key after its head: a packed run over a ring, read by a shape.
#[derive(Drop)]
pub struct SecretRun<'a, R> {
    pub ring: &'a R,
    pub run: &'a [u8],
    pub shape: Shape,
}

// A secret run whose shape is within its limits.
#[derive(Drop)]
pub struct SecretKey<'a, R> {
    pub secret: SecretRun<'a, R>,
    pub ghost within: { within secret.shape ≡ true },
}

impl<'a, R> SecretRun<'a, R> {
    // The run as that of a key; None where its shape is outside the limits.
    // Field by field: a derived copy would ask that the ring can be copied.
    pub fn key(&self) -> Option<SecretKey<'a, R>>
        ensures { MatchOption result (within self.now.shape ≡ false) (λ k. k.secret ≡ self.now) }
    {
        let shape = self.shape;
        if !shape.is_within() {
            return None;
        }
        let secret = SecretRun {
            ring: self.ring,
            run: self.run,
            shape,
        };
        Some(SecretKey { secret })
    }
}
