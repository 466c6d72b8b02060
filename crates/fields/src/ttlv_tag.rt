ghost use Rattle.std.specs.Prelude.{◌≡◌};
ghost use Rattle.ttlv.specs.Numbers.{be, of_be};
ghost use Rattle.hexadecimal.specs.Digits.{hexed};

use hexadecimal::digits::digits;
use std::fmt;

/// The tag of an item. One that is read has three bytes; one that is made may be any number of 32 bits.
#[derive(Clone, Copy, PartialEq, Eq, Debug)]
pub struct TtlvTag(u32);

// `new` and `value` name what they take and give; the bytes are conversions
impl TtlvTag {
    /// The tag of a number.
    pub fn new(value: u32) -> TtlvTag
        ensures { result.0 ≡ value }
    {
        TtlvTag(value)
    }

    /// The tag's number.
    pub fn value(&self) -> u32
        ensures { result ≡ self.now.0 }
    {
        self.0
    }

    /// The six uppercase digits of the tag's bytes.
    pub fn digits(&self) -> [u8; 6]
        ensures { result ≡ hexed (be 3 self.now.0) }
    {
        let bytes = <[u8; 3]>::from(*self);
        let high = digits(bytes[0]);
        let middle = digits(bytes[1]);
        let low = digits(bytes[2]);
        [high[0], high[1], middle[0], middle[1], low[0], low[1]]
    }
}

/// The tag that three bytes write.
impl From<[u8; 3]> for TtlvTag {
    ghost from_gives = { λ bytes r. r.0 ≡ of_be bytes };

    fn from(bytes: [u8; 3]) -> TtlvTag {
        TtlvTag(u32::from_be_bytes([0, bytes[0], bytes[1], bytes[2]]))
    }
}

/// The tag's three bytes, the lowest of its number.
impl From<TtlvTag> for [u8; 3] {
    ghost from_gives = { λ tag r. r ≡ be 3 tag.0 };

    fn from(tag: TtlvTag) -> [u8; 3] {
        let bytes = tag.0.to_be_bytes();
        [bytes[1], bytes[2], bytes[3]]
    }
}

impl fmt::Display for TtlvTag {
    fn fmt<W: fmt::Write>(&self, f: &mut fmt::Formatter<W>) -> fmt::Result {
        write!(f, "0x{:06X}", self.0)
    }
}
