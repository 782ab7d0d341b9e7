use super::faults::LayerFault;

// The buffers that a call is lent, by the names that a refusal gives them.
#[derive(Clone, Copy, PartialEq, Eq, Debug)]
pub enum Buffer {
    Key,
    Strip,
    Digest,
    Vinegar,
    Signature,
    PublicKey,
    Workspace,
}

// Why a call says no. Each case has a number and values, which docs/REFUSALS.md lists.
#[derive(Clone, Copy, PartialEq, Eq, Debug)]
pub enum Refusal {
    // A key is shorter than a head.
    ShortHead,
    // A key's first byte is not q - 1.
    OtherField,
    // A number of the shape is outside its limits.
    OddShape,
    // Places or life of a shelf are outside their limits.
    BadShelf,
    // A buffer has not the length that the shape gives.
    WrongLength(Buffer),
    // A buffer holds a number that is no code; the place of the first, counted from 1.
    ForeignCode(Buffer, usize),
    // As many starts were prepared as the life of the shelf allows.
    WornOut,
    // The starts that are waiting and in hand fill all places.
    Full,
    // Some non-zero vector goes to zero in layer one.
    DullVinegar(LayerFault<1>),
    // No start is waiting.
    NoneWaiting,
    // A start is in hand.
    HandFull,
    // The start given is not the one in hand.
    StrangeStart,
    // Some non-zero vector goes to zero in layer two.
    DullDigest(LayerFault<2>),
}
