ghost use Rattle.std.specs.Prelude.{◌≡◌, Some};
ghost use Rattle.fields.specs.Types.{type_byte, type_letter, type_name, type_of_byte, TypesByte};

use crate::refusals::TypeRefusal;
use std::fmt;

/// The type of an item, by which its value is written.
#[derive(Clone, Copy, PartialEq, Eq, Debug)]
pub enum TtlvType {
    Structure = 0x01,
    Integer = 0x02,
    LongInteger = 0x03,
    BigInteger = 0x04,
    Enumeration = 0x05,
    Boolean = 0x06,
    TextString = 0x07,
    ByteString = 0x08,
    DateTime = 0x09,
}

impl TtlvType {
    /// The letter that stands for the type in diagnostic strings.
    pub fn letter(&self) -> char
        ensures { result ≡ type_letter self.now }
    {
        match self {
            TtlvType::Structure => '[',
            TtlvType::Integer => 'i',
            TtlvType::LongInteger => 'l',
            TtlvType::BigInteger => 'I',
            TtlvType::Enumeration => 'e',
            TtlvType::Boolean => 'b',
            TtlvType::TextString => 't',
            TtlvType::ByteString => 'o',
            TtlvType::DateTime => 'd',
        }
    }

    /// The type's name, with its byte.
    pub fn name(&self) -> &'static str
        ensures { result.now ≡ type_name self.now }
    {
        match self {
            TtlvType::Structure => "Structure (0x01)",
            TtlvType::Integer => "Integer (0x02)",
            TtlvType::LongInteger => "LongInteger (0x03)",
            TtlvType::BigInteger => "BigInteger (0x04)",
            TtlvType::Enumeration => "Enumeration (0x05)",
            TtlvType::Boolean => "Boolean (0x06)",
            TtlvType::TextString => "TextString (0x07)",
            TtlvType::ByteString => "ByteString (0x08)",
            TtlvType::DateTime => "DateTime (0x09)",
        }
    }
}

/// The type that a type byte stands for.
impl TryFrom<u8> for TtlvType {
    type Error = TypeRefusal;

    ghost try_from_gives = { λ byte r. (r ≡ type_of_byte byte) × TypesByte byte r };

    fn try_from(byte: u8) -> Result<TtlvType, TypeRefusal> {
        match byte {
            0x01 => Ok(TtlvType::Structure),
            0x02 => Ok(TtlvType::Integer),
            0x03 => Ok(TtlvType::LongInteger),
            0x04 => Ok(TtlvType::BigInteger),
            0x05 => Ok(TtlvType::Enumeration),
            0x06 => Ok(TtlvType::Boolean),
            0x07 => Ok(TtlvType::TextString),
            0x08 => Ok(TtlvType::ByteString),
            0x09 => Ok(TtlvType::DateTime),
            0x0A => Err(TypeRefusal::Unsupported(byte)),
            _ => Err(TypeRefusal::Invalid(byte)),
        }
    }
}

/// The type's byte.
impl From<TtlvType> for u8 {
    ghost from_gives = { λ kind r. r ≡ type_byte kind };

    fn from(kind: TtlvType) -> u8 {
        kind as u8
    }
}

impl fmt::Display for TtlvType {
    ghost output = { λ t. Some (type_name t) };

    fn fmt<W: fmt::Write>(&self, f: &mut fmt::Formatter<W>) -> fmt::Result {
        f.write_str(self.name())
    }
}
