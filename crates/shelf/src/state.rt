ghost use Rattle.std.specs.Prelude.{◌≡◌, ◌*◌};
ghost use Rattle.keys.specs.Shapes.{place_length};
ghost use Rattle.shelf.specs.Steps.{fresh, HandsBack};

use keys::{Refusal, Shape};

// A start: vinegar that was put in, with the first layer inverted for it. It carries its number only.
// It can be neither copied nor dropped: it ends in `sign` or `throw_away`, and only `take` makes one.
pub struct Start {
    pub(crate) number: u32,
}

// A refusal of a call that was given a start, and that very start.
pub struct HandedBack {
    pub refusal: Refusal,
    pub start: Start,
}

// What a shelf remembers: its places and life, how many starts were prepared, taken, signed and thrown away, and the number of the start in hand.
#[derive(Clone, Copy)]
pub struct Inner {
    pub(crate) places: u8,
    pub(crate) life: u32,
    pub(crate) prepared: u32,
    pub(crate) taken: u32,
    pub(crate) signed: u32,
    pub(crate) thrown: u32,
    pub(crate) hand: Option<u32>,
}

impl Start {
    // Ends the start where its call succeeded; after a refusal hands it back.
    pub(crate) fn end(self, answer: Result<(), Refusal>) -> Result<(), HandedBack>
        ensures { HandsBack self result (λ a. a ≡ answer) }
    {
        match answer {
            Ok(()) => {
                let Start { number: _ } = self;
                Ok(())
            }
            Err(refusal) => Err(HandedBack {
                refusal,
                start: self,
            }),
        }
    }
}

impl Inner {
    // So many places and such a life, nothing prepared.
    pub(crate) fn fresh(places: u8, life: u32) -> Inner
        ensures { result ≡ fresh places life }
    {
        Inner {
            places,
            life,
            prepared: 0,
            taken: 0,
            signed: 0,
            thrown: 0,
            hand: None,
        }
    }

    // The length of a strip of these places.
    pub(crate) fn strip_len(&self, shape: &Shape) -> usize
        ensures { result ≡ self.now.places * place_length shape.now }
    {
        self.places as usize * shape.place_len()
    }
}
