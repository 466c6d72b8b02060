ghost use Rattle.reading.specs.Reads.{ReadsValue, PassesValue, ReadsBackWhatIsWritten};

use crate::pass::pass_value_bytes;
use crate::refusals::ValueFault;
use crate::value_parts::{pass_padding, read_value_bytes, read_value_length};
use fields::ttlv_type::TtlvType;
use streams::source::Source;

/// Reads a value of a kind into the front of a scratch, and answers its length.
pub fn read_value<R: Source>(
    src: &mut R,
    kind: TtlvType,
    scratch: &mut [u8],
) -> Result<usize, ValueFault>
    ensures reads { ReadsValue kind (R.ahead src.old) (R.ahead src.new) scratch.old scratch.new result }
    ensures law { ReadsBackWhatIsWritten }
{
    let len = read_value_length(src, kind)?;
    if len > scratch.len() {
        return Err(ValueFault::ScratchTooShort { needed: len });
    }
    read_value_bytes(src, kind, &mut scratch[0..len])?;
    pass_padding(src, len)?;
    Ok(len)
}

// the parts are those of `read_value`; what is done with the second differs, and so does what is refused before it
/// Reads a value of a kind and of any length without keeping it, and answers what is printed of it.
pub fn pass_value<R: Source>(src: &mut R, kind: TtlvType) -> Result<Option<u32>, ValueFault>
    ensures { PassesValue kind (R.ahead src.old) (R.ahead src.new) result }
{
    let len = read_value_length(src, kind)?;
    let shown = pass_value_bytes(src, kind, len)?;
    pass_padding(src, len)?;
    Ok(shown)
}
