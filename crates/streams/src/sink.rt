ghost use Rattle.std.specs.Prelude.{◌≡◌, ◌+◌, length, nat_lt};
ghost use Rattle.streams.specs.Sinks.{Store, Puts, Patches, Looks, Overwrites};

use crate::refusals::{PlaceRefusal, PutRefusal};

/// Bytes held, and room for more.
pub trait Sink {
    /// The bytes held, the room left, and the memory that they stand in.
    ghost store: { Self → Store };

    /// Appends all of `bytes`, or refuses.
    fn put(&mut self, bytes: &[u8]) -> Result<(), PutRefusal>
        ensures { Puts (store self.old) (store self.new) bytes.now result };

    // `at` and `bytes` are what the call says, so they are no struct
    /// Overwrites the bytes held from `at` on, or refuses.
    fn patch(&mut self, at: usize, bytes: &[u8]) -> Result<(), PlaceRefusal>
        ensures { Patches (store self.old) (store self.new) at bytes.now result };

    /// The byte held at `p`.
    fn byte_at(&self, p: usize) -> Result<u8, PlaceRefusal>
        ensures { Looks (store self.now) p result };

    /// How many bytes are held.
    fn count(&self) -> usize
        ensures { result ≡ length (store self.now).memory.held };

    /// How many more bytes have room.
    fn room(&self) -> usize
        ensures { result ≡ (store self.now).memory.room };
}

/// Whether `len` bytes from `at` on reach past the first `count`.
pub fn reaches_past(at: usize, len: usize, count: usize) -> bool
    ensures { result ≡ nat_lt count (at + len) }
{
    at > count || len > count - at
}

/// Overwrites the bytes of `held` from `at` on, or refuses.
pub fn overwrite(held: &mut [u8], at: usize, bytes: &[u8]) -> Result<(), PlaceRefusal>
    ensures { Overwrites held.old held.new at bytes.now result }
{
    if reaches_past(at, bytes.len(), held.len()) {
        return Err(PlaceRefusal::OutOfRange);
    }
    held[at..at + bytes.len()].copy_from_slice(bytes);
    Ok(())
}
