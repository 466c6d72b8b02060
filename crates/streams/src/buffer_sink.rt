ghost use Rattle.std.specs.Prelude.{◌≡◌, min, length, take};
ghost use Rattle.streams.specs.Sinks.{buffer_store};

use crate::refusals::{PlaceRefusal, PutRefusal};
use crate::sink::{Sink, overwrite};

/// The caller's buffer, filled from its front; a `len` past its end stands for its end.
#[derive(Drop)]
pub struct BufferSink<'a> {
    // the caller's memory and how much of its front is held, and no `Vec`: programs without a heap use it; no ghost field says that `len` is
    // within, since beside a `&mut` one keeps sinks in an array from being written to in place
    buf: &'a mut [u8],
    len: usize,
}

impl<'a> BufferSink<'a> {
    /// A sink that holds nothing, with all of `buf` as its room.
    pub fn new(buf: &'a mut [u8]) -> BufferSink<'a>
        ensures empty { result.len ≡ 0 }
        ensures holds { result.buf.now ≡ buf.old }
        ensures lends { result.buf.ghost_name ≡ buf.entry.ghost_name }
    {
        BufferSink { buf, len: 0 }
    }

    /// The bytes held.
    pub fn bytes(&self) -> &[u8]
        ensures { result.now ≡ take self.now.len self.now.buf.now }
    {
        let count = self.count();
        &self.buf[0..count]
    }
}

impl Sink for BufferSink<'_> {
    ghost store = { λ s. buffer_store s.buf.now s.len s.buf.ghost_name };

    fn put(&mut self, bytes: &[u8]) -> Result<(), PutRefusal> {
        let at = self.count();
        if bytes.len() > self.buf.len() - at {
            return Err(PutRefusal::NoRoom);
        }
        let end = at + bytes.len();
        self.buf[at..end].copy_from_slice(bytes);
        self.len = end;
        Ok(())
    }

    fn patch(&mut self, at: usize, bytes: &[u8]) -> Result<(), PlaceRefusal> {
        let count = self.count();
        overwrite(&mut self.buf[0..count], at, bytes)
    }

    fn byte_at(&self, p: usize) -> Result<u8, PlaceRefusal> {
        self.bytes().get(p).copied().ok_or(PlaceRefusal::OutOfRange)
    }

    fn count(&self) -> usize
        ensures held { result ≡ length (take self.now.len self.now.buf.now) }
        ensures within { result ≡ min self.now.len (length self.now.buf.now) }
    {
        self.len.min(self.buf.len())
    }

    fn room(&self) -> usize {
        self.buf.len().saturating_sub(self.len)
    }
}
