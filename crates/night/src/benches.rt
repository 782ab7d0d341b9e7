use anyhow::anyhow;
use fields::{Field, Ring, packed_len};
use keys::{ReadKey, Refusal, Shape};
use shelf::Shelf;
use std::alloc::Global;

// A shelf with its secret key, and the buffers that its calls are lent.
#[derive(Drop)]
pub(crate) struct Bench<F> {
    pub(crate) shelf: Shelf<F>,
    pub(crate) key: Vec<u8>,
    pub(crate) strip: Vec<u8>,
    pub(crate) signature: Vec<u8>,
    pub(crate) workspace: Vec<u8>,
}

impl<F: Field + Drop> Bench<F> {
    // A shelf that is made, with so many places and such a life.
    pub(crate) fn new(
        heap: Global,
        field: F,
        key: Vec<u8>,
        places: u8,
        life: u32,
    ) -> anyhow::Result<Bench<F>> {
        let read = ReadKey::read(&field, key.as_slice());
        let shape = read.map_or(Shape::from([0; 3]), |key| key.shape());
        let signature_len = packed_len(field.size(), shape.variables());
        let strip_len = shape.place_len().saturating_mul(places as usize);
        let signature = vec![in heap; 0u8; signature_len]?;
        let workspace = vec![in heap; 0u8; shape.sign_workspace()]?;
        let mut strip = vec![in heap; 0u8; strip_len]?;
        let mut shelf = Shelf::new(field);
        let made = shelf.make(
            key.as_slice(),
            strip.as_mut_slice(),
            places as u64,
            life as u64,
        );
        if let Err(refusal) = made {
            return Err(anyhow!(format!(in heap; "make: {refusal}")?));
        }
        Ok(Bench {
            shelf,
            key,
            strip,
            signature,
            workspace,
        })
    }

    pub(crate) fn prepare(&mut self, vinegar: &[u8]) -> Result<u32, Refusal> {
        self.shelf.prepare(
            self.key.as_slice(),
            self.strip.as_mut_slice(),
            vinegar,
            self.workspace.as_mut_slice(),
        )
    }

    // What the last accepted signature wrote.
    pub(crate) fn signature(&self) -> &[u8] {
        self.signature.as_slice()
    }
}
