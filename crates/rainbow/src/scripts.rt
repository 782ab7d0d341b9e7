use super::builtin::verify_key;
use super::faults::Fault;
use super::publishing::{Unpublished, publish};
use keys::{Listed, Set, named};
use std::alloc::{AllocError, Global};
use std::{fs, io};

// What the script has given so far.
#[derive(Drop)]
pub(crate) struct Session {
    secret: Vec<u8>,
    key: Vec<u8>,
    digest: Vec<u8>,
    signature: Vec<u8>,
}

// The bytes that a line lists in base ten.
fn parse_bytes<'a>(heap: Global, text: &'a str) -> Result<Vec<u8>, Fault<'a>> {
    text.split_whitespace()
        .map(|word| -> Result<u8, Fault> { word.parse().map_err(|_| Fault::NoByte(word)) })
        .try_collect(heap)
}

// The raw bytes of a file.
fn read_bytes<'a>(rt: &HostRuntime, path: &'a str) -> Result<Vec<u8>, Fault<'a>> {
    fs::read(rt, path).map_err(|_| Fault::Unread(path))
}

// Puts bytes into a buffer.
fn put(
    heap: Global,
    name: &str,
    bytes: Vec<u8>,
    buffer: &mut Vec<u8>,
) -> Result<String, AllocError> {
    let count = bytes.len();
    *buffer = bytes;
    format!(in heap; "{name}: {count} bytes")
}

// What the `set` line shows of a set.
fn describe(heap: Global, name: &str, set: &Set) -> Result<String, AllocError> {
    let q = set.q;
    let (v1, o1, o2) = (set.shape.v1, set.shape.o1, set.shape.o2);
    let secret = set.secret_len();
    let public = set.public_len();
    let signature = set.signature_len();
    let digest = set.digest_len();
    format!(in heap;
        "{name}: q {q}, shape {v1} {o1} {o2}, bytes: secret {secret}, public {public}, signature {signature}, digest {digest}"
    )
}

fn set_line<'a>(heap: Global, name: &'a str) -> Result<String, Fault<'a>> {
    let set = named(name).ok_or(Fault::NoSet(name))?;
    Ok(describe(heap, name, &set)?)
}

impl Session {
    pub(crate) fn new(heap: Global) -> Session {
        Session {
            secret: Vec::new(heap),
            key: Vec::new(heap),
            digest: Vec::new(heap),
            signature: Vec::new(heap),
        }
    }

    // Makes the public key of the secret key, and prints it or writes it to a file.
    fn public<'a>(&self, rt: &HostRuntime, path: &'a str) -> Result<String, Fault<'a>> {
        let heap = rt.alloc();
        let public = match publish(heap, self.secret.as_slice()) {
            Ok(bytes) => bytes,
            Err(Unpublished::Refused(refusal)) => {
                return Ok(format!(in heap; "refused: {refusal}")?);
            }
            Err(Unpublished::NoMemory(error)) => return Err(Fault::NoMemory(error)),
        };
        if path.is_empty() {
            let list = Listed(public.as_slice());
            return Ok(format!(in heap; "public:{list}")?);
        }
        let count = public.len();
        fs::write(rt, path, public.as_slice()).map_err(|_| Fault::Unwritten(path))?;
        Ok(format!(in heap; "public: {count} bytes written to {path}")?)
    }

    fn verdict(&self, heap: Global) -> Result<String, AllocError> {
        let answer = verify_key(
            self.key.as_slice(),
            self.digest.as_slice(),
            self.signature.as_slice(),
        );
        match answer {
            Ok(true) => String::from_str(heap, "yes"),
            Ok(false) => String::from_str(heap, "no"),
            Err(refusal) => format!(in heap; "refused: {refusal}"),
        }
    }

    // Carries out one line of the script.
    fn reply<'a>(&mut self, rt: &HostRuntime, line: &'a str) -> Result<String, Fault<'a>> {
        let heap = rt.alloc();
        let (word, rest) = line.split_once(' ').unwrap_or((line, ""));
        let rest = rest.trim();
        let text = match word {
            "set" => set_line(heap, rest)?,
            "key" => put(heap, "key", parse_bytes(heap, rest)?, &mut self.key)?,
            "key-file" => put(heap, "key", read_bytes(rt, rest)?, &mut self.key)?,
            "secret" => put(heap, "secret", parse_bytes(heap, rest)?, &mut self.secret)?,
            "secret-file" => put(heap, "secret", read_bytes(rt, rest)?, &mut self.secret)?,
            "public" => self.public(rt, rest)?,
            "digest" => put(heap, "digest", parse_bytes(heap, rest)?, &mut self.digest)?,
            "signature" => put(
                heap,
                "signature",
                parse_bytes(heap, rest)?,
                &mut self.signature,
            )?,
            "verify" if rest.is_empty() => self.verdict(heap)?,
            "verify" => return Err(Fault::MoreWords(word)),
            _ => return Err(Fault::UnknownCall(word)),
        };
        Ok(text)
    }

    // Answers one line: an empty one and a comment, which begins with #, with nothing.
    pub(crate) fn answer(&mut self, rt: &HostRuntime, number: usize, line: &str) -> io::Result<()> {
        let line = line.trim();
        if line.is_empty() || line.starts_with('#') {
            return Ok(());
        }
        match self.reply(rt, line) {
            Ok(text) => println!(rt; "{text}"),
            Err(Fault::NoMemory(error)) => Err(io::Error::from(error)),
            Err(fault) => println!(rt; "line {number}: {fault}"),
        }
    }
}
