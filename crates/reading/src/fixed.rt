ghost use Rattle.fields.specs.Types.{type_byte};
ghost use Rattle.reading.specs.Stages.{without_scratch, told_value};
ghost use Rattle.reading.specs.Reads.{Stops};

use crate::read::read_value;
use crate::refusals::ValueFault;
use streams::source::Source;
use values::fixed::FixedLengthTtlvType;
use values::spelt::SpeltTtlvType;

/// Reads a value of fixed length.
pub fn read_fixed<V: SpeltTtlvType, R: Source>(src: &mut R) -> Result<V, ValueFault>
    ensures { Stops (without_scratch (type_byte V.SpeltTtlvType.typed) (R.ahead src.old)) (V.SpeltTtlvType.spelt (told_value (R.ahead src.old))) V.SpeltTtlvType.typed (R.ahead src.old) (R.ahead src.new) result }
{
    let mut eight = [0u8; 8];
    read_value(src, V::fixed_type(), &mut eight)?;
    Ok(V::from_spelt(eight))
}
