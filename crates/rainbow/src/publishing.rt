use super::builtin::publish_key;
use keys::{Head, Refusal, Shape};
use std::alloc::{AllocError, Global};

// Why there is no public key.
#[derive(Drop)]
pub(crate) enum Unpublished {
    Refused(Refusal),
    NoMemory(AllocError),
}

impl From<Refusal> for Unpublished {
    fn from(refusal: Refusal) -> Unpublished {
        Unpublished::Refused(refusal)
    }
}

impl From<AllocError> for Unpublished {
    fn from(error: AllocError) -> Unpublished {
        Unpublished::NoMemory(error)
    }
}

// How many bytes the public key of a secret key takes, and the workspace of its making; None where the head will be refused.
// By hand, since the key's ring is not known here.
fn room(key: &[u8]) -> Option<(usize, usize)> {
    let [first, v1, o1, o2, ..] = key else {
        return None;
    };
    let shape = Shape::from([*v1, *o1, *o2]);
    let public = Head::new(shape).public_len(*first as u16 + 1);
    shape.is_within().then_some((public, shape.key_workspace()))
}

// The public key of a secret key, in memory of its own.
pub(crate) fn publish(heap: Global, key: &[u8]) -> Result<Vec<u8>, Unpublished> {
    let (len, space) = room(key).unwrap_or((0, 0));
    let mut public = vec![in heap; 0u8; len]?;
    let mut workspace = vec![in heap; 0u8; space]?;
    publish_key(key, public.as_mut_slice(), workspace.as_mut_slice())?;
    Ok(public)
}
