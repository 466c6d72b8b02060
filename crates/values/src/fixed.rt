ghost use Rattle.std.specs.Prelude.{◌≡◌, ℕ, ◌-◌, ◌≤◌, ◌++◌, length, take, replicate};

use crate::value::SerializableTtlvType;

/// A kind whose values all have one length, of at most eight bytes: value and padding are eight bytes together.
pub trait FixedLengthTtlvType: SerializableTtlvType + Sized {
    /// The length of every value.
    ghost fixed: { ℕ };

    /// The length of every value.
    fn fixed_len() -> u32
        ensures { result ≡ fixed };

    /// The value bytes and their padding.
    fn to_eight(&self) -> [u8; 8]
        ensures { result ≡ Self.SerializableTtlvType.value self.now ++ replicate (8 - fixed) 0 };

    /// The value of which these are the bytes and some padding.
    fn from_eight(bytes: [u8; 8]) -> Self
        ensures { Self.SerializableTtlvType.value result ≡ take fixed bytes };

    ghost short: { fixed ≤ 8 };

    ghost long: { (v : Self) → length (Self.SerializableTtlvType.value v) ≡ fixed };
}
