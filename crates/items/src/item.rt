ghost use Rattle.std.specs.Prelude.{◌≡◌};
ghost use Rattle.items.specs.Items.{item_tag, item_kind, ReadsContent, ReadsItem};

use crate::header::read_header;
use faults::error_location::ErrorLocation;
use faults::fault::{Fault, pinpoint};
use faults::item_fault::ItemFault;
use fields::byte_offset::ByteOffset;
use fields::ttlv_tag::TtlvTag;
use fields::ttlv_type::TtlvType;
use reading::read::pass_value;
use reading::value_parts::read_value_length;
use streams::source::Source;

/// An item that was read: what is printed of it.
#[derive(Clone, Copy, PartialEq, Eq, Debug)]
pub enum Item {
    /// A structure's header.
    Structure {
        tag: TtlvTag,
        length: usize,
    },
    /// A value, whole; an Enumeration's number is shown.
    Value {
        tag: TtlvTag,
        kind: TtlvType,
        shown: Option<u32>,
    },
}

impl Item {
    /// The item's tag.
    pub fn tag(&self) -> TtlvTag
        ensures { result ≡ item_tag self.now }
    {
        match self {
            Item::Structure { tag, .. } | Item::Value { tag, .. } => *tag,
        }
    }

    /// The item's type.
    pub fn kind(&self) -> TtlvType
        ensures { result ≡ item_kind self.now }
    {
        match self {
            Item::Structure { .. } => TtlvType::Structure,
            Item::Value { kind, .. } => *kind,
        }
    }
}

/// Reads what follows the header of an item.
fn read_content<R: Source>(src: &mut R, tag: TtlvTag, kind: TtlvType) -> Result<Item, ItemFault>
    ensures { ReadsContent tag kind (R.ahead src.old) (R.ahead src.new) result }
{
    if kind == TtlvType::Structure {
        let length = read_value_length(src, kind)?;
        return Ok(Item::Structure { tag, length });
    }
    let shown = pass_value(src, kind)?;
    Ok(Item::Value { tag, kind, shown })
}

/// Reads an item whose first byte is at `at`: a structure's header, or a value whole.
pub fn read_item<R: Source>(src: &mut R, at: ByteOffset) -> Result<Item, Fault>
    ensures { ReadsItem at (R.ahead src.old) (R.ahead src.new) result }
{
    let (tag, kind) = read_header(src, at)?;
    let here = ErrorLocation::at(at).with_tag(tag).with_type(kind);
    let item = pinpoint(read_content(src, tag, kind), here)?;
    Ok(item)
}
