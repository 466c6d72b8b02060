ghost use Rattle.std.specs.Prelude.{◌≡◌};
ghost use Rattle.hexadecimal.specs.Layers.{hex_store};

use crate::digits::{digits, pair_or_zero};
use streams::refusals::{PlaceRefusal, PutRefusal};
use streams::sink::{Sink, reaches_past};

/// Bytes as pairs of uppercase digits in the sink below.
#[derive(Drop)]
pub struct HexSink<'a, S> {
    below: &'a mut S,
}

impl<'a, S: Sink> HexSink<'a, S> {
    /// A layer over `below`, which the caller has back once the layer is gone.
    pub fn new(below: &'a mut S) -> HexSink<'a, S>
        ensures holds { result.below.now ≡ below.old }
        ensures lends { result.below.ghost_name ≡ below.entry.ghost_name }
    {
        HexSink { below }
    }
}

impl<S: Sink> Sink for HexSink<'_, S> {
    ghost store = { λ s. hex_store s.below.ghost_name (S.Sink.store s.below.now) };

    fn put(&mut self, bytes: &[u8]) -> Result<(), PutRefusal> {
        if bytes.len() > self.room() {
            return Err(PutRefusal::NoRoom);
        }
        for b in bytes {
            self.below.put(&digits(*b))?;
        }
        Ok(())
    }

    fn patch(&mut self, at: usize, bytes: &[u8]) -> Result<(), PlaceRefusal> {
        if reaches_past(at, bytes.len(), self.below.count() / 2) {
            return Err(PlaceRefusal::OutOfRange);
        }
        for (i, b) in bytes.iter().enumerate() {
            self.below.patch(2 * (at + i), &digits(*b))?;
        }
        Ok(())
    }

    fn byte_at(&self, p: usize) -> Result<u8, PlaceRefusal> {
        if p >= self.below.count() / 2 {
            return Err(PlaceRefusal::OutOfRange);
        }
        let high = self.below.byte_at(2 * p)?;
        let low = self.below.byte_at(2 * p + 1)?;
        Ok(pair_or_zero(high, low))
    }

    fn count(&self) -> usize {
        self.below.count() / 2
    }

    fn room(&self) -> usize {
        if self.below.count() % 2 == 0 {
            self.below.room() / 2
        } else {
            0
        }
    }
}
