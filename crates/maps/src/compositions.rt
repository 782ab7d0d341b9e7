ghost use Rattle.maps.specs.PublicKeys.{EveryPoint, ValidMeans};

use fields::Ring;

// The value of a public key that `public_key` makes is S after F after T, at every point.
pub fn composition_stands<R: Ring>(ring: &R)
    ensures { EveryPoint (R.Ring.ring ring.now) }
{}

// On such a key `verify` says yes exactly where S after F after T at the signature is the digest.
pub fn verdict_stands<R: Ring>(ring: &R)
    ensures { ValidMeans (R.Ring.ring ring.now) }
{}
