ghost use Rattle.std.specs.Prelude.{◌≡◌, ℕ, ◌+◌};
ghost use Rattle.fields.specs.Packing.{packed_length};
ghost use Rattle.keys.specs.Shapes.{variables, equations, secret_codes, public_codes};
ghost use Rattle.keys.specs.Heads.{key_length};
ghost use Rattle.keys.specs.Sets.{Named};

use super::heads::Head;
use super::shapes::Shape;
use fields::packed_len;

// A built-in set: the field's size and the shape.
#[derive(Clone, Copy, PartialEq, Eq, Debug)]
pub struct Set {
    pub q: u16,
    pub shape: Shape,
}

const IA: Set = Set {
    q: 16,
    shape: Shape {
        v1: 32,
        o1: 32,
        o2: 32,
    },
};

const IIIC: Set = Set {
    q: 256,
    shape: Shape {
        v1: 68,
        o1: 36,
        o2: 36,
    },
};

const VC: Set = Set {
    q: 256,
    shape: Shape {
        v1: 92,
        o1: 48,
        o2: 48,
    },
};

const K31: Set = Set {
    q: 31,
    shape: Shape {
        v1: 1,
        o1: 1,
        o2: 1,
    },
};

// The set of that name; any other name finds none.
pub fn named(name: &str) -> Option<Set>
    ensures { Named name.now result }
{
    match name {
        "Ia" => Some(IA),
        "IIIc" => Some(IIIC),
        "Vc" => Some(VC),
        "K31" => Some(K31),
        _ => None,
    }
}

impl Set {
    // The length of a secret key, head included.
    pub fn secret_len(&self) -> usize
        ensures { result ≡ key_length 4 self.now.q (secret_codes self.now.shape) }
    {
        Head::new(self.shape).secret_len(self.q)
    }

    // The length of a public key, head included.
    pub fn public_len(&self) -> usize
        ensures { result ≡ key_length 4 self.now.q (public_codes self.now.shape) }
    {
        Head::new(self.shape).public_len(self.q)
    }

    // The length of a signature.
    pub fn signature_len(&self) -> usize
        ensures { result ≡ packed_length self.now.q (variables self.now.shape) }
    {
        packed_len(self.q, self.shape.variables())
    }

    // The length of a digest.
    pub fn digest_len(&self) -> usize
        ensures { result ≡ packed_length self.now.q (equations self.now.shape) }
    {
        packed_len(self.q, self.shape.equations())
    }

    // The length of a start's vinegar.
    pub fn vinegar_len(&self) -> usize
        ensures { result ≡ packed_length self.now.q self.now.shape.v1 }
    {
        packed_len(self.q, self.shape.v1 as usize)
    }
}
