ghost use Rattle.std.specs.Prelude.{◌≡◌, ◌++◌, length, take, drop};
ghost use Rattle.ttlv.specs.Numbers.{padding as pad_of};
ghost use Rattle.reading.specs.Parts.{Passes, ReadsLength, ReadsBytes};

use crate::refusals::ValueFault;
use fields::ttlv_length::TtlvLength;
use fields::ttlv_type::TtlvType;
use streams::exact::read_exact;
use streams::refusals::ReadRefusal;
use streams::source::Source;
use values::legal::{check_length, check_value};
use values::padding::padding_of;

// the source outlives each value that is read from it, so source and kind are no struct
/// Reads the length of a value, and refuses one that no value of the kind has.
pub fn read_value_length<R: Source>(src: &mut R, kind: TtlvType) -> Result<usize, ValueFault>
    ensures { ReadsLength kind (R.ahead src.old) (R.ahead src.new) result }
{
    let mut bytes = [0u8; 4];
    read_exact(src, &mut bytes)?;
    let len = TtlvLength::from(bytes).value() as usize;
    check_length(kind, len)?;
    Ok(len)
}

/// Reads the bytes of a value, and refuses those that are none of the kind.
pub fn read_value_bytes<R: Source>(
    src: &mut R,
    kind: TtlvType,
    value: &mut [u8],
) -> Result<(), ValueFault>
    ensures reads { ReadsBytes tt kind (length value.old) (R.ahead src.old) (R.ahead src.new) result }
    ensures filled { value.new ≡ take (length value.old) (R.ahead src.old) ++ drop (length (R.ahead src.old)) value.old }
{
    read_exact(src, value)?;
    check_value(kind, value)?;
    Ok(())
}

/// Passes over the padding of a value of `len` bytes, without looking at it.
pub fn pass_padding<R: Source>(src: &mut R, len: usize) -> Result<(), ReadRefusal>
    ensures { Passes (R.ahead src.old) (R.ahead src.new) (pad_of len) result }
{
    let mut bytes = [0u8; 8];
    let pad = padding_of(len);
    read_exact(src, &mut bytes[0..pad])
}
