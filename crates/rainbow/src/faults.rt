use std::alloc::AllocError;
use std::fmt;

// Why a line of a script has no answer.
#[derive(Drop)]
pub(crate) enum Fault<'a> {
    UnknownCall(&'a str),
    MoreWords(&'a str),
    NoByte(&'a str),
    NoSet(&'a str),
    Unread(&'a str),
    Unwritten(&'a str),
    NoMemory(AllocError),
}

impl From<AllocError> for Fault<'_> {
    fn from(error: AllocError) -> Self {
        Fault::NoMemory(error)
    }
}

impl fmt::Display for Fault<'_> {
    fn fmt<W: fmt::Write>(&self, f: &mut fmt::Formatter<W>) -> fmt::Result {
        match self {
            Fault::UnknownCall(word) => write!(f, "unknown call {word}"),
            Fault::MoreWords(word) => write!(f, "{word} takes no more words"),
            Fault::NoByte(word) => write!(f, "{word} is no byte, 0 to 255"),
            Fault::NoSet(name) => write!(f, "no set has the name {name}"),
            Fault::Unread(path) => write!(f, "cannot read {path}"),
            Fault::Unwritten(path) => write!(f, "cannot write {path}"),
            Fault::NoMemory(error) => write!(f, "{error}"),
        }
    }
}
