ghost use Rattle.std.specs.Prelude.{◌≡◌};
ghost use Rattle.shelf.specs.Steps.{Taken};

use super::shelves::Shelf;
use super::state::Start;
use fields::Field;
use keys::Refusal;

impl<F: Field> Shelf<F> {
    // Hands out the oldest waiting start; one at most is in hand.
    pub fn take(&mut self) -> Result<Start, Refusal>
        ensures answer { Taken self.old.inner result self.new.inner }
        ensures field { self.new.field ≡ self.old.field }
    {
        if self.inner.prepared == self.inner.taken {
            return Err(Refusal::NoneWaiting);
        }
        if self.inner.hand.is_some() {
            return Err(Refusal::HandFull);
        }
        let number = self.inner.taken + 1;
        self.inner.taken = number;
        self.inner.hand = Some(number);
        Ok(Start { number })
    }
}

impl Start {
    // The start's number.
    pub fn number(&self) -> u32
        ensures { result ≡ self.now.number }
    {
        self.number
    }
}
