ghost use Rattle.std.specs.Prelude.{◌≡◌};

/// A place in a message, counted in bytes from 0.
#[derive(Clone, Copy, PartialEq, Eq, PartialOrd, Ord, Debug)]
pub struct ByteOffset(pub u64);

impl From<u64> for ByteOffset {
    ghost from_gives = { λ n r. r.0 ≡ n };

    fn from(n: u64) -> ByteOffset {
        ByteOffset(n)
    }
}
