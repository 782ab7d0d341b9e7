ghost use Rattle.std.specs.Prelude.{Some};
ghost use Rattle.keys.specs.Listed.{listed};

use std::fmt;

// Bytes in base ten, with a space before each.
#[derive(Clone, Copy)]
pub struct Listed<'a>(pub &'a [u8]);

impl fmt::Display for Listed<'_> {
    ghost output = { λ l. Some (listed l.0.now) };

    fn fmt<W: fmt::Write>(&self, f: &mut fmt::Formatter<W>) -> fmt::Result {
        for byte in self.0 {
            write!(f, " {byte}")?;
        }
        Ok(())
    }
}
