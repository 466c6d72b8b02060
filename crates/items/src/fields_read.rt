ghost use Rattle.std.specs.Prelude.{◌≡◌, ℕ, List, length, take, Ok, slice_index};
ghost use Rattle.ttlv.specs.Numbers.{of_be};
ghost use Rattle.fields.specs.Types.{type_of_byte};
ghost use Rattle.fields.specs.declared.field_type.FieldType.TheVariants.{Tag as tag_field, «Type» as type_field, Length as length_field};
ghost use Rattle.items.specs.Fields.{ReadsField, typed};

use faults::item_fault::ItemFault;
use fields::field_type::FieldType;
use fields::state_machine::TtlvStateMachine;
use fields::ttlv_length::TtlvLength;
use fields::ttlv_tag::TtlvTag;
use fields::ttlv_type::TtlvType;
use streams::exact::read_exact;
use streams::source::Source;

// a struct of source and machine would be made for each header, and its clauses would name both
/// Reads the bytes of a field, if the state machine expects it.
fn read_bytes<const N: usize, R: Source>(
    src: &mut R,
    state: &mut TtlvStateMachine,
    field: FieldType,
) -> Result<[u8; N], ItemFault>
    ensures { ReadsField field N (Ok (take N (R.ahead src.old))) state.old state.new (R.ahead src.old) (R.ahead src.new) result }
{
    state.advance(field)?;
    let mut bytes = [0u8; N];
    read_exact(src, &mut bytes)?;
    Ok(bytes)
}

/// Reads a tag, if the state machine expects one.
pub fn read_tag<R: Source>(src: &mut R, state: &mut TtlvStateMachine) -> Result<TtlvTag, ItemFault>
    ensures { ReadsField tag_field 3 (Ok record { 0 = of_be (take 3 (R.ahead src.old)) }) state.old state.new (R.ahead src.old) (R.ahead src.new) result }
{
    let bytes: [u8; 3] = read_bytes(src, state, FieldType::Tag)?;
    Ok(TtlvTag::from(bytes))
}

/// Reads a type, if the state machine expects one.
pub fn read_type<R: Source>(
    src: &mut R,
    state: &mut TtlvStateMachine,
) -> Result<TtlvType, ItemFault>
    ensures { ReadsField type_field 1 (typed (type_of_byte (slice_index (R.ahead src.old) 0))) state.old state.new (R.ahead src.old) (R.ahead src.new) result }
{
    let [byte]: [u8; 1] = read_bytes(src, state, FieldType::Type)?;
    let kind = TtlvType::try_from(byte)?;
    Ok(kind)
}

/// Reads a length, if the state machine expects one.
pub fn read_length<R: Source>(
    src: &mut R,
    state: &mut TtlvStateMachine,
) -> Result<TtlvLength, ItemFault>
    ensures { ReadsField length_field 4 (Ok record { 0 = of_be (take 4 (R.ahead src.old)) }) state.old state.new (R.ahead src.old) (R.ahead src.new) result }
{
    let bytes: [u8; 4] = read_bytes(src, state, FieldType::Length)?;
    Ok(TtlvLength::from(bytes))
}
