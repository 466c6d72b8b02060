ghost use Rattle.std.specs.Prelude.{◌≡◌};
ghost use Rattle.ttlv.specs.Numbers.{be, of_be};

// beside `TtlvTag`: one type with a const parameter for both would take a length for a tag
/// The length of an item's value.
#[derive(Clone, Copy, PartialEq, Eq, Debug)]
pub struct TtlvLength(u32);

// `new` and `value` name what they take and give; the bytes are conversions
impl TtlvLength {
    /// A length of so many bytes.
    pub fn new(value: u32) -> TtlvLength
        ensures { result.0 ≡ value }
    {
        TtlvLength(value)
    }

    /// How many bytes it is.
    pub fn value(&self) -> u32
        ensures { result ≡ self.now.0 }
    {
        self.0
    }
}

/// The length that four bytes write.
impl From<[u8; 4]> for TtlvLength {
    ghost from_gives = { λ bytes r. r.0 ≡ of_be bytes };

    fn from(bytes: [u8; 4]) -> TtlvLength {
        TtlvLength(u32::from_be_bytes(bytes))
    }
}

/// The length's four bytes.
impl From<TtlvLength> for [u8; 4] {
    ghost from_gives = { λ length r. r ≡ be 4 length.0 };

    fn from(length: TtlvLength) -> [u8; 4] {
        length.0.to_be_bytes()
    }
}
