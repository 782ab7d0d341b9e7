ghost use Rattle.std.specs.Prelude.{◌≡◌, [], ◌∷◌, None};
ghost use Rattle.keys.specs.Refusals.{told};

use super::faults::LayerFault;
use super::refusals::{Buffer, Refusal};
use std::fmt;

impl Refusal {
    // The refusal's number.
    // By hand, since a case may carry values and then has no number of its own.
    pub fn number(&self) -> u8
        ensures { result ≡ (told self.now).number }
    {
        match self {
            Refusal::ShortHead => 1,
            Refusal::OtherField => 2,
            Refusal::OddShape => 3,
            Refusal::BadShelf => 4,
            Refusal::WrongLength(_) => 5,
            Refusal::ForeignCode(_, _) => 6,
            Refusal::WornOut => 7,
            Refusal::Full => 8,
            Refusal::DullVinegar(_) => 9,
            Refusal::NoneWaiting => 10,
            Refusal::HandFull => 11,
            Refusal::StrangeStart => 12,
            Refusal::DullDigest(_) => 13,
        }
    }
}

impl From<LayerFault<1>> for Refusal {
    ghost from_gives = { λ d r. told r ≡ record { number = 9; buffer = None; values = 1 ∷ d.fault.column ∷ [] } };

    fn from(d: LayerFault<1>) -> Refusal {
        Refusal::DullVinegar(d)
    }
}

impl From<LayerFault<2>> for Refusal {
    ghost from_gives = { λ d r. told r ≡ record { number = 13; buffer = None; values = 2 ∷ d.fault.column ∷ [] } };

    fn from(d: LayerFault<2>) -> Refusal {
        Refusal::DullDigest(d)
    }
}

impl fmt::Display for Buffer {
    fn fmt<W: fmt::Write>(&self, f: &mut fmt::Formatter<W>) -> fmt::Result {
        f.write_str(match self {
            Buffer::Key => "key",
            Buffer::Strip => "strip",
            Buffer::Digest => "digest",
            Buffer::Vinegar => "vinegar",
            Buffer::Signature => "signature",
            Buffer::PublicKey => "public key",
            Buffer::Workspace => "workspace",
        })
    }
}

// A refusal in words: its number, its name, and its values.
impl fmt::Display for Refusal {
    fn fmt<W: fmt::Write>(&self, f: &mut fmt::Formatter<W>) -> fmt::Result {
        let number = self.number();
        match self {
            Refusal::ShortHead => write!(f, "{number} short head"),
            Refusal::OtherField => write!(f, "{number} other field"),
            Refusal::OddShape => write!(f, "{number} odd shape"),
            Refusal::BadShelf => write!(f, "{number} bad shelf"),
            Refusal::WrongLength(buffer) => write!(f, "{number} wrong length: {buffer}"),
            Refusal::ForeignCode(buffer, place) => {
                write!(f, "{number} foreign code: {buffer}, place {place}")
            }
            Refusal::WornOut => write!(f, "{number} worn out"),
            Refusal::Full => write!(f, "{number} full"),
            Refusal::DullVinegar(fault) => write!(f, "{number} dull vinegar: {fault}"),
            Refusal::NoneWaiting => write!(f, "{number} none waiting"),
            Refusal::HandFull => write!(f, "{number} hand full"),
            Refusal::StrangeStart => write!(f, "{number} strange start"),
            Refusal::DullDigest(fault) => write!(f, "{number} dull digest: {fault}"),
        }
    }
}
