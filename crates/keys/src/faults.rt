ghost use Rattle.std.specs.Prelude.{◌≡◌};

use matrices::Dependent;
use std::fmt;

// The solver's fault, whole, and in its type the layer that it came in.
#[derive(Clone, Copy, PartialEq, Eq, Debug)]
pub struct LayerFault<const L: u8> {
    pub fault: Dependent,
}

impl<const L: u8> From<Dependent> for LayerFault<L> {
    ghost from_gives = { λ d r. r.fault ≡ d };

    fn from(d: Dependent) -> LayerFault<L> {
        LayerFault { fault: d }
    }
}

impl<const L: u8> fmt::Display for LayerFault<L> {
    fn fmt<W: fmt::Write>(&self, f: &mut fmt::Formatter<W>) -> fmt::Result {
        let (layer, column) = (L, self.fault.column);
        write!(f, "layer {layer}, column {column}")
    }
}
