ghost use Rattle.ttlv.specs.Kinds.{value_item, Legal};
ghost use Rattle.fields.specs.Types.{type_byte};
ghost use Rattle.values.specs.Writing.{Written, write_answer};

use crate::padding::padding_of;
use crate::refusals::WriteRefusal;
use crate::value::SerializableTtlvType;
use streams::sink::Sink;

/// The most bytes that a message has.
pub const MESSAGE_LIMIT: usize = 16_777_216;

// a value and where it goes are no struct: to put them together is the call
/// Writes a value alone: its length, its bytes, which are legal by the table of kinds, and its padding, all or nothing.
pub fn write_value<V: SerializableTtlvType, S: Sink>(v: &V, dst: &mut S) -> Result<(), WriteRefusal>
    ensures writes { Written (write_answer result) (S.store dst.old) (S.store dst.new) (value_item (V.value v.now)) }
    ensures legal { Legal (type_byte (V.kind v.now)) (V.value v.now) }
{
    let len = v.value_len();
    if len > MESSAGE_LIMIT {
        return Err(WriteRefusal::TooLong);
    }
    let pad = padding_of(len);
    let whole = 4 + len + pad;
    if whole > MESSAGE_LIMIT {
        return Err(WriteRefusal::TooLong);
    }
    if whole > dst.room() {
        return Err(WriteRefusal::NoRoom);
    }
    let zeros = [0u8; 8];
    dst.put(&(len as u32).to_be_bytes())?;
    v.put_value(dst)?;
    dst.put(&zeros[0..pad])?;
    Ok(())
}
