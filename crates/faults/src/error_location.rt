ghost use Rattle.std.specs.Prelude.{◌≡◌, ◌&&◌, Some, None};
ghost use Rattle.faults.specs.Locations.{placed, unplaced, or_else, is_none};

use fields::byte_offset::ByteOffset;
use fields::ttlv_tag::TtlvTag;
use fields::ttlv_type::TtlvType;
use std::fmt;

/// Where a fault sits: the item's first byte, counted from 0, and its tag and type, as far as they are known.
#[derive(Clone, Copy, PartialEq, Eq, Default, Debug)]
pub struct ErrorLocation {
    pub offset: Option<ByteOffset>,
    pub tag: Option<TtlvTag>,
    pub kind: Option<TtlvType>,
}

impl ErrorLocation {
    /// A place of which only the first byte is known.
    pub fn at(offset: ByteOffset) -> ErrorLocation
        ensures { result ≡ placed offset }
    {
        ErrorLocation {
            offset: Some(offset),
            ..ErrorLocation::unknown()
        }
    }

    /// A place of which nothing is known.
    pub fn unknown() -> ErrorLocation
        ensures { result ≡ unplaced }
    {
        ErrorLocation::default()
    }

    /// Whether nothing is known of the place.
    pub fn is_unknown(&self) -> bool
        ensures { result ≡ (is_none self.now.offset && (is_none self.now.tag && is_none self.now.kind)) }
    {
        *self == ErrorLocation::unknown()
    }

    /// The place with the tag, unless it has one.
    pub fn with_tag(self, tag: TtlvTag) -> ErrorLocation
        ensures { result ≡ record { offset = self.offset; tag = or_else self.tag (Some tag); kind = self.kind } }
    {
        self.merge(ErrorLocation {
            tag: Some(tag),
            ..ErrorLocation::unknown()
        })
    }

    /// The place with the type, unless it has one.
    pub fn with_type(self, kind: TtlvType) -> ErrorLocation
        ensures { result ≡ record { offset = self.offset; tag = self.tag; kind = or_else self.kind (Some kind) } }
    {
        self.merge(ErrorLocation {
            kind: Some(kind),
            ..ErrorLocation::unknown()
        })
    }

    /// What is known of either place, of this one first.
    pub fn merge(self, other: ErrorLocation) -> ErrorLocation
        ensures { result ≡ record { offset = or_else self.offset other.offset; tag = or_else self.tag other.tag; kind = or_else self.kind other.kind } }
    {
        ErrorLocation {
            offset: self.offset.or(other.offset),
            tag: self.tag.or(other.tag),
            kind: self.kind.or(other.kind),
        }
    }
}

impl From<ByteOffset> for ErrorLocation {
    ghost from_gives = { λ offset r. r ≡ placed offset };

    fn from(offset: ByteOffset) -> ErrorLocation {
        ErrorLocation::at(offset)
    }
}

impl fmt::Display for ErrorLocation {
    fn fmt<W: fmt::Write>(&self, f: &mut fmt::Formatter<W>) -> fmt::Result {
        if self.is_unknown() {
            return f.write_str("Unknown");
        }
        let mut between = "";
        if let Some(ByteOffset(offset)) = self.offset {
            write!(f, "pos: {offset} bytes")?;
            between = ", ";
        }
        if let Some(tag) = self.tag {
            write!(f, "{between}tag: {tag}")?;
            between = ", ";
        }
        if let Some(kind) = self.kind {
            write!(f, "{between}type: {kind}")?;
        }
        Ok(())
    }
}
