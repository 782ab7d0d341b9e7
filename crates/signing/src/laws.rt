ghost use Rattle.std.specs.Prelude.{◌≡◌};
ghost use Rattle.signing.specs.Signatures.{ExactlyOne, Fixed, EachVerifies, NoOther, StartsAreGood, SameStart};

use fields::{Field, Ring};

// Where neither layer's system takes a non-zero vector to zero, there is exactly one signature.
pub fn exactly_one<F: Field>(field: &F)
    ensures { ExactlyOne (F.Ring.ring field.now) }
{}

// A signature fixes its vinegar and its digest.
pub fn fixed<R: Ring>(ring: &R)
    ensures { Fixed (R.Ring.ring ring.now) }
{}

// On the public key that `public_key` makes, `verify` says yes to each signature.
pub fn each_verifies<R: Ring>(ring: &R)
    ensures { EachVerifies (R.Ring.ring ring.now) }
{}

// `verify` says yes to no other codes whose image begins alike.
pub fn no_other<F: Field>(field: &F)
    ensures { NoOther (F.Ring.ring field.now) }
{}

// A place that holds the start of a vinegar ends in its signature, or in a fault exactly where the second layer is singular.
pub fn starts_are_good<F: Field>(field: &F)
    ensures { StartsAreGood (F.Ring.ring field.now) }
{}

// Two signatures from one start show where the first layer's equations vanish.
pub fn same_start<R: Ring>(ring: &R)
    ensures { SameStart (R.Ring.ring ring.now) }
{}
