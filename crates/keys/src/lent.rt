ghost use Rattle.std.specs.Prelude.{◌≡◌, ℕ, Option, Result, not, map, length, take, ◌==◌, nat_le};
ghost use Rattle.std.specs.List.{position};
ghost use Rattle.std.specs.Option.{option_map};
ghost use Rattle.std.specs.Fn.{FnReturnsAt};
ghost use Rattle.fields.specs.Packing.{first_foreign as foreign_place};
ghost use Rattle.keys.specs.Refusals.{Answers, Told, told, test, first, packed_run, byte_run, space, length_test, codes_test, buffer_tests};
ghost use Rattle.keys.specs.Seen.{code, count, seen};
ghost use Rattle.keys.specs.declared.refusals.Refusal.TheVariants.{WrongLength};

use super::refusals::{Buffer, Refusal};
use fields::{Ring, first_foreign, packed_len};

// The codes that a call reads of a buffer: the first so many of a packed run, or of bytes, a code each; or none.
#[derive(Clone, Copy)]
pub enum Codes<'a> {
    Packed(&'a [u8], usize),
    Bytes(&'a [u8], usize),
    Unread,
}

// A buffer that a call is lent: its name, whether it has its length, and the codes that are read of it.
#[derive(Clone, Copy)]
pub struct Lent<'a> {
    pub name: Buffer,
    // A flag, since it is one in the record that contracts speak of.
    pub fits: bool,
    pub codes: Codes<'a>,
}

// The place of the first of n bytes that is at least q.
fn first_from(q: u16, bytes: &[u8], n: usize) -> Option<usize>
    ensures { result ≡ position (λ b. nat_le q b) (take n bytes.now) }
{
    bytes.iter().take(n).position(|&b| b as u16 >= q)
}

impl Codes<'_> {
    // The place, counted from 1, of the first that is no code of the ring.
    #[tactic(auto, unfolding(fields::specs::Packing::first_foreign))]
    fn first_foreign<R: Ring>(&self, ring: &R) -> Option<usize>
        ensures { result ≡ foreign_place (R.Ring.ring ring.now).q (code (R.Ring.ring ring.now).q self.now) (count self.now) }
    {
        match *self {
            Codes::Packed(run, n) => first_foreign(ring, run, n),
            Codes::Bytes(bytes, n) => first_from(ring.size(), bytes, n).map(|k| k + 1),
            Codes::Unread => None,
        }
    }
}

impl<'a> Lent<'a> {
    // The buffer of exactly n packed codes after a head of so many bytes.
    pub fn packed_run<R: Ring>(
        ring: &R,
        name: Buffer,
        bytes: &'a [u8],
        head: u8,
        n: usize,
    ) -> Lent<'a>
        ensures { seen (R.Ring.ring ring.now).q result ≡ packed_run (R.Ring.ring ring.now).q name bytes.now head n }
    {
        let start = bytes.len().min(head as usize);
        let run = &bytes[start..];
        Lent {
            name,
            fits: start == head as usize && run.len() == packed_len(ring.size(), n),
            codes: Codes::Packed(run, n),
        }
    }

    // The buffer of exactly n codes, one a byte.
    pub fn byte_run(name: Buffer, bytes: &'a [u8], n: usize) -> Lent<'a>
        ensures { (q : ℕ) → seen q result ≡ byte_run name bytes.now n }
    {
        Lent {
            name,
            fits: bytes.len() == n,
            codes: Codes::Bytes(bytes, n),
        }
    }

    // A buffer that is written: only its length is tested.
    pub fn space(name: Buffer, bytes: &[u8], len: usize) -> Lent<'a>
        ensures { (q : ℕ) → seen q result ≡ space name (length bytes.now == len) }
    {
        Lent {
            name,
            fits: bytes.len() == len,
            codes: Codes::Unread,
        }
    }

    // A workspace, which may be longer than what is asked.
    pub fn workspace(bytes: &[u8], len: usize) -> Lent<'a>
        ensures { (q : ℕ) → seen q result ≡ space Buffer.Workspace (nat_le len (length bytes.now)) }
    {
        Lent {
            name: Buffer::Workspace,
            fits: len <= bytes.len(),
            codes: Codes::Unread,
        }
    }

    // Refuses a buffer that has not its length.
    pub fn test_length(&self) -> Result<(), Refusal>
        ensures { Answers (test (not self.now.fits) (WrongLength self.now.name)) result (λ _. Unit {0}) }
    {
        if self.fits {
            Ok(())
        } else {
            Err(Refusal::WrongLength(self.name))
        }
    }

    // Refuses a buffer among whose codes there is a foreign one; it names the place of the first, counted from 1.
    pub fn test_codes<R: Ring>(&self, ring: &R) -> Result<(), Refusal>
        ensures { Answers (codes_test (R.Ring.ring ring.now).q (seen (R.Ring.ring ring.now).q self.now)) result (λ _. Unit {0}) }
    {
        match self.codes.first_foreign(ring) {
            Some(place) => Err(Refusal::ForeignCode(self.name, place)),
            None => Ok(()),
        }
    }
}

// The first refusal that a test gives of these, in their order.
fn refuse_by<T, F: Fn(&T) -> Result<(), Refusal>>(items: &[T], test: F) -> Result<(), Refusal>
    requires { F.IsAlwaysCallable test }
    ensures { (t : T → Option Told) → ((x : T) (r : Result Unit Refusal) → FnReturnsAt F.Fn test x r → Answers (t x) r (λ _. Unit {0})) → Answers (first (map t items.now)) result (λ _. Unit {0}) }
{
    for item in items {
        test(item)?;
    }
    Ok(())
}

// The first refusal of a call's tests, which stand in their order.
pub fn refuse_first(tests: &[Option<Refusal>]) -> Result<(), Refusal>
    ensures { Answers (first (map (option_map told) tests.now)) result (λ _. Unit {0}) }
{
    refuse_by(tests, |test| match test {
        Some(refusal) => Err(*refusal),
        None => Ok(()),
    })
}

// The first refusal of a buffer's length.
pub fn refuse_lengths(buffers: &[Lent]) -> Result<(), Refusal>
    ensures { (q : ℕ) → Answers (first (map length_test (map (seen q) buffers.now))) result (λ _. Unit {0}) }
{
    refuse_by(buffers, |buffer| buffer.test_length())
}

// The first refusal of a buffer's codes.
pub fn refuse_codes<R: Ring>(ring: &R, buffers: &[Lent]) -> Result<(), Refusal>
    ensures { Answers (first (map (codes_test (R.Ring.ring ring.now).q) (map (seen (R.Ring.ring ring.now).q) buffers.now))) result (λ _. Unit {0}) }
{
    refuse_by(buffers, |buffer| buffer.test_codes(ring))
}

// The first refusal of the buffers: the lengths of all are tested, and then the codes of all.
pub fn refuse_buffers<R: Ring>(ring: &R, buffers: &[Lent]) -> Result<(), Refusal>
    ensures { Answers (first (buffer_tests (R.Ring.ring ring.now).q (map (seen (R.Ring.ring ring.now).q) buffers.now))) result (λ _. Unit {0}) }
{
    refuse_lengths(buffers)?;
    refuse_codes(ring, buffers)
}
