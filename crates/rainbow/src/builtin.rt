ghost use Rattle.std.specs.Prelude.{◌≡◌};
ghost use Rattle.maps.specs.PublicKeys.{PublicMade};
ghost use Rattle.maps.specs.Verdicts.{Verdict};
ghost use Rattle.rainbow.specs.Builtin.{meaning, ring_of_key};

use fields::{Gf2, Mod31, Modulo, gf4, gf16, gf256};
use keys::Refusal;
use maps::{public_key, verify};

// The rings that the program has.
#[derive(Clone, Copy, PartialEq, Eq, Debug)]
enum BuiltIn {
    Gf2,
    Gf4,
    Modulo6,
    Gf16,
    Gf256,
    Mod31,
}

// The ring that a key's first byte names, the integers modulo 31 where it names none.
fn named(key: &[u8]) -> BuiltIn
    ensures { meaning result ≡ ring_of_key key.now }
{
    match key.first().copied().unwrap_or(0) {
        1 => BuiltIn::Gf2,
        3 => BuiltIn::Gf4,
        5 => BuiltIn::Modulo6,
        15 => BuiltIn::Gf16,
        255 => BuiltIn::Gf256,
        _ => BuiltIn::Mod31,
    }
}

// The integers modulo 6, a ring and no field.
fn modulo_6() -> Modulo
    ensures { result.q ≡ 6 }
{
    Modulo::new(6).unwrap()
}

// The verdict over the built-in ring that the key's first byte names; a key that names none is refused.
pub(crate) fn verify_key(key: &[u8], digest: &[u8], signature: &[u8]) -> Result<bool, Refusal>
    ensures { Verdict (ring_of_key key.now) key.now digest.now signature.now result }
{
    match named(key) {
        BuiltIn::Gf2 => verify(&Gf2, key, digest, signature),
        BuiltIn::Gf4 => verify(&gf4(), key, digest, signature),
        BuiltIn::Modulo6 => verify(&modulo_6(), key, digest, signature),
        BuiltIn::Gf16 => verify(&gf16(), key, digest, signature),
        BuiltIn::Gf256 => verify(&gf256(), key, digest, signature),
        BuiltIn::Mod31 => verify(&Mod31, key, digest, signature),
    }
}

// The public key of a secret key, over the built-in ring that the key's first byte names; a key that names none is refused.
// The match is that of `verify_key`: one for both calls would take a trait of calls and a struct for each.
pub(crate) fn publish_key(
    key: &[u8],
    public: &mut [u8],
    workspace: &mut [u8],
) -> Result<(), Refusal>
    ensures { PublicMade (ring_of_key key.now) key.now public.old workspace.old result public.new workspace.new }
{
    match named(key) {
        BuiltIn::Gf2 => public_key(&Gf2, key, public, workspace),
        BuiltIn::Gf4 => public_key(&gf4(), key, public, workspace),
        BuiltIn::Modulo6 => public_key(&modulo_6(), key, public, workspace),
        BuiltIn::Gf16 => public_key(&gf16(), key, public, workspace),
        BuiltIn::Gf256 => public_key(&gf256(), key, public, workspace),
        BuiltIn::Mod31 => public_key(&Mod31, key, public, workspace),
    }
}
