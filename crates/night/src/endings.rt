ghost use Rattle.std.specs.Prelude.{◌≡◌, ◌+◌, [], Some, None, Ok, Err};
ghost use Rattle.keys.specs.Refusals.{first, told};
ghost use Rattle.night.specs.declared.endings.Unsigned.TheVariants.{NotTaken};
ghost use Rattle.shelf.specs.Steps.{throw_tests, take_tests, with_taken, with_signed, with_thrown};
ghost use Rattle.night.specs.Benches.{SameKey, OnlyStrip};

use super::benches::Bench;
use fields::Field;
use keys::Refusal;
use shelf::{HandedBack, Start};

// Why there is no signature.
#[derive(Clone, Copy)]
pub(crate) enum Unsigned {
    // No start was taken.
    NotTaken(Refusal),
    // The signature was refused, and the start of that number thrown away.
    Thrown(u32, Refusal),
}

impl From<Refusal> for Unsigned {
    ghost from_gives = { λ d r. r ≡ NotTaken d };

    fn from(refusal: Refusal) -> Unsigned {
        Unsigned::NotTaken(refusal)
    }
}

impl From<Unsigned> for Refusal {
    fn from(unsigned: Unsigned) -> Refusal {
        match unsigned {
            Unsigned::NotTaken(refusal) | Unsigned::Thrown(_, refusal) => refusal,
        }
    }
}

impl<F: Field> Bench<F> {
    // Throws away the start in hand, once key and strip have passed.
    #[tactic(auto, using(crate::proofs::Ends::endable))]
    fn end(&mut self, start: Start)
        requires passed { first (throw_tests (F.Ring.ring self.old.shelf.field).q self.old.shelf.inner self.old.key.items self.old.strip.items []) ≡ None }
        requires held { self.old.shelf.inner.hand ≡ Some start.number }
        ensures shelf { self.new.shelf.inner ≡ with_thrown self.old.shelf.inner }
        ensures rest { OnlyStrip self.old self.new }
    {
        let strip = self.strip.as_mut_slice();
        match self.shelf.throw_away(self.key.as_slice(), strip, start) {
            Ok(()) => (),
            Err(_) => unreachable(),
        }
    }

    // Takes the oldest waiting start and throws it away: its number.
    pub(crate) fn waste(&mut self) -> Result<u32, Refusal>
        ensures shelf { elim result [ Ok k ↦ (k ≡ self.old.shelf.inner.taken + 1) × (self.new.shelf.inner ≡ with_thrown (with_taken self.old.shelf.inner)) | Err _ ↦ self.new.shelf.inner ≡ self.old.shelf.inner ] }
        ensures rest { OnlyStrip self.old self.new }
    {
        self.shelf
            .judge(self.key.as_slice(), self.strip.as_slice())?;
        let start = self.shelf.take()?;
        let number = start.number();
        self.end(start);
        Ok(number)
    }

    // Takes the oldest waiting start and signs with it: its number; where that is refused, throws it away.
    pub(crate) fn seal(&mut self, digest: &[u8]) -> Result<u32, Unsigned>
        ensures shelf { elim result [ Ok k ↦ (k ≡ self.old.shelf.inner.taken + 1) × (self.new.shelf.inner ≡ with_signed (with_taken self.old.shelf.inner)) | Err e ↦ elim e [ Unsigned.Thrown k _ ↦ (k ≡ self.old.shelf.inner.taken + 1) × (self.new.shelf.inner ≡ with_thrown (with_taken self.old.shelf.inner)) | Unsigned.NotTaken _ ↦ self.new.shelf.inner ≡ self.old.shelf.inner ] ] }
        ensures rest { SameKey self.old self.new }
    {
        let key = self.key.as_slice();
        self.shelf.judge(key, self.strip.as_slice())?;
        let start = self.shelf.take()?;
        let number = start.number();
        let strip = self.strip.as_mut_slice();
        let signature = self.signature.as_mut_slice();
        let workspace = self.workspace.as_mut_slice();
        match self
            .shelf
            .sign(key, strip, start, digest, signature, workspace)
        {
            Ok(()) => Ok(number),
            Err(HandedBack { refusal, start }) => {
                let number = start.number();
                self.end(start);
                Err(Unsigned::Thrown(number, refusal))
            }
        }
    }

    // Takes the oldest waiting start, asks for another while it is in hand, and throws it away: its number, and the second answer.
    pub(crate) fn take_twice(&mut self) -> Result<(u32, Refusal), Refusal>
        ensures shelf { elim result [ Ok p ↦ (p.0 ≡ self.old.shelf.inner.taken + 1) × ((first (take_tests (with_taken self.old.shelf.inner)) ≡ Some (told p.1)) × (self.new.shelf.inner ≡ with_thrown (with_taken self.old.shelf.inner))) | Err _ ↦ self.new.shelf.inner ≡ self.old.shelf.inner ] }
        ensures rest { OnlyStrip self.old self.new }
    {
        self.shelf
            .judge(self.key.as_slice(), self.strip.as_slice())?;
        let start = self.shelf.take()?;
        let number = start.number();
        let refusal = match self.shelf.take() {
            Ok(_) => unreachable(),
            Err(refusal) => refusal,
        };
        self.end(start);
        Ok((number, refusal))
    }

    // Takes the oldest waiting start and gives it to the shelf of another bench, which is to refuse it; its own shelf throws it away.
    // The start's number, and the other shelf's answer.
    pub(crate) fn give_away(
        &mut self,
        other: &mut Bench<F>,
    ) -> Result<(u32, Result<(), Refusal>), Refusal>
        ensures shelf { elim result [ Ok p ↦ (p.0 ≡ self.old.shelf.inner.taken + 1) × elim p.1 [ Ok _ ↦ self.new.shelf.inner ≡ with_taken self.old.shelf.inner | Err _ ↦ (self.new.shelf.inner ≡ with_thrown (with_taken self.old.shelf.inner)) × (other.new.shelf.inner ≡ other.old.shelf.inner) ] | Err _ ↦ (self.new.shelf.inner ≡ self.old.shelf.inner) × (other.new.shelf.inner ≡ other.old.shelf.inner) ] }
        ensures rest { OnlyStrip self.old self.new }
        ensures other { OnlyStrip other.old other.new }
    {
        let key = self.key.as_slice();
        self.shelf.judge(key, self.strip.as_slice())?;
        let start = self.shelf.take()?;
        let number = start.number();
        let strip = other.strip.as_mut_slice();
        match other.shelf.throw_away(key, strip, start) {
            Ok(()) => Ok((number, Ok(()))),
            Err(HandedBack { refusal, start }) => {
                self.end(start);
                Ok((number, Err(refusal)))
            }
        }
    }
}
