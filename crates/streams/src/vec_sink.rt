ghost use Rattle.std.specs.Prelude.{◌≡◌, ◌≤◌, [], IfOk, vec_len, vec_capacity};
ghost use Rattle.streams.specs.Sinks.{owned_store};

use crate::refusals::{PlaceRefusal, PutRefusal};
use crate::sink::{Sink, overwrite};
use std::alloc::{AllocError, Global};

/// An owned buffer whose memory is reserved when it is made, so that no put fails for want of memory.
#[derive(Drop)]
pub struct VecSink {
    bytes: Vec<u8>,
    // the room that was asked for: the memory may be larger
    reserved: usize,
    ghost fits: { (vec_len bytes ≤ reserved) × (reserved ≤ vec_capacity bytes) },
}

impl VecSink {
    /// A sink that holds nothing, with room for `reserved` bytes.
    pub fn with_room(heap: Global, reserved: usize) -> Result<VecSink, AllocError>
        ensures { IfOk result (λ s. (s.bytes.items ≡ []) × (s.reserved ≡ reserved)) }
    {
        let bytes = Vec::with_capacity(heap, reserved)?;
        Ok(VecSink { bytes, reserved })
    }

    /// The bytes held.
    pub fn bytes(&self) -> &[u8]
        ensures { result.now ≡ self.now.bytes.items }
    {
        self.bytes.as_slice()
    }

    /// Gives up the sink for the bytes that it holds.
    pub fn into_vec(self) -> Vec<u8>
        ensures { result ≡ self.bytes }
    {
        let VecSink { bytes, reserved: _ } = self;
        bytes
    }
}

impl Sink for VecSink {
    ghost store = { λ s. owned_store s.bytes.items s.reserved };

    fn put(&mut self, bytes: &[u8]) -> Result<(), PutRefusal> {
        if bytes.len() > self.room() {
            return Err(PutRefusal::NoRoom);
        }
        // no memory is wanted: it is reserved
        self.bytes
            .extend_from_slice(bytes)
            .map_err(|_| PutRefusal::NoRoom)
    }

    fn patch(&mut self, at: usize, bytes: &[u8]) -> Result<(), PlaceRefusal> {
        overwrite(self.bytes.as_mut_slice(), at, bytes)
    }

    fn byte_at(&self, p: usize) -> Result<u8, PlaceRefusal> {
        self.bytes.get(p).copied().ok_or(PlaceRefusal::OutOfRange)
    }

    fn count(&self) -> usize {
        self.bytes.len()
    }

    fn room(&self) -> usize {
        self.reserved - self.count()
    }
}
