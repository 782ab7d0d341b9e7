ghost use Rattle.std.specs.Prelude.{◌≡◌, slice_index};

// The shape of a key: v1 vinegar variables, and the oil variables of its two layers, as many as equations of that layer.
#[derive(Clone, Copy, PartialEq, Eq, Debug)]
pub struct Shape {
    pub v1: u16,
    pub o1: u16,
    pub o2: u16,
}

impl From<[u8; 3]> for Shape {
    ghost from_gives = { λ b s. s ≡ record { v1 = slice_index b 0; o1 = slice_index b 1; o2 = slice_index b 2 } };

    fn from(numbers: [u8; 3]) -> Shape {
        let [v1, o1, o2] = numbers;
        Shape {
            v1: v1 as u16,
            o1: o1 as u16,
            o2: o2 as u16,
        }
    }
}
