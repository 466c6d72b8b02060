ghost use Rattle.items.specs.Items.{ReadsHeader, ReadsHeadersBack};

use crate::fields_read::{read_tag, read_type};
use faults::error_location::ErrorLocation;
use faults::fault::{Fault, pinpoint};
use fields::byte_offset::ByteOffset;
use fields::state_machine::{TtlvStateMachine, TtlvStateMachineMode};
use fields::ttlv_tag::TtlvTag;
use fields::ttlv_type::TtlvType;
use streams::source::Source;

/// Reads the tag and the type of an item whose first byte is at `at`.
pub fn read_header<R: Source>(src: &mut R, at: ByteOffset) -> Result<(TtlvTag, TtlvType), Fault>
    ensures reads { ReadsHeader at (R.ahead src.old) (R.ahead src.new) result }
    ensures law { ReadsHeadersBack }
{
    let mut state = TtlvStateMachine::new(TtlvStateMachineMode::Deserializing);
    let here = ErrorLocation::at(at);
    let tag = pinpoint(read_tag(src, &mut state), here)?;
    let kind = pinpoint(read_type(src, &mut state), here.with_tag(tag))?;
    Ok((tag, kind))
}
