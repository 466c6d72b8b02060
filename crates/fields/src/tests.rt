// Examples at the edges; read under #[cfg(test)] alone.
use crate::field_type::FieldType;
use crate::refusals::{AdvanceRefusal, IgnoreRefusal, TypeRefusal};
use crate::state_machine::{TtlvStateMachine, TtlvStateMachineMode};
use crate::ttlv_length::TtlvLength;
use crate::ttlv_tag::TtlvTag;
use crate::ttlv_type::TtlvType;
use std::test::Fail;

#[test]
fn type_bytes_are_types_or_refused(rt: HostRuntime) {
    assert_eq!(rt; TtlvType::try_from(0x01), Ok(TtlvType::Structure));
    assert_eq!(rt; TtlvType::try_from(0x09), Ok(TtlvType::DateTime));
    assert_eq!(rt;
        TtlvType::try_from(0x0A),
        Err(TypeRefusal::Unsupported(0x0A))
    );
    assert_eq!(rt; TtlvType::try_from(0x00), Err(TypeRefusal::Invalid(0x00)));
    assert_eq!(rt; TtlvType::try_from(0x0B), Err(TypeRefusal::Invalid(0x0B)));
    assert_eq!(rt; u8::from(TtlvType::Boolean), 0x06);
}

#[test]
fn names_are_shown(rt: HostRuntime) -> Result<(), Fail> {
    let name = format!(in rt.alloc(); "{}", TtlvType::Integer)?;
    assert!(rt; name.as_str() == "Integer (0x02)");
    let name = format!(in rt.alloc(); "{}", FieldType::LengthAndValue)?;
    assert!(rt; name.as_str() == "LengthAndValue");
    Ok(())
}

#[test]
fn tags_and_lengths_are_written_highest_byte_first(rt: HostRuntime) {
    assert!(rt; &<[u8; 3]>::from(TtlvTag::new(0x42005C)) == b"\x42\x00\x5C");
    assert_eq!(rt; TtlvTag::from([0x42, 0x00, 0x5C]).value(), 0x42005C);
    assert!(rt; &<[u8; 4]>::from(TtlvLength::new(0x0102)) == b"\x00\x00\x01\x02");
    assert_eq!(rt; TtlvLength::from([0, 0, 1, 2]).value(), 0x0102);
}

#[test]
fn fields_come_in_their_order(rt: HostRuntime) {
    let mut machine = TtlvStateMachine::new(TtlvStateMachineMode::Deserializing);
    assert_eq!(rt; machine.advance(FieldType::Tag), Ok(true));
    let expected = FieldType::Type;
    let actual = FieldType::Tag;
    assert_eq!(rt;
        machine.advance(FieldType::Tag),
        Err(AdvanceRefusal::UnexpectedTtlvField { expected, actual })
    );
    assert_eq!(rt; machine.advance(FieldType::Type), Ok(true));
    assert_eq!(rt; machine.advance(FieldType::LengthAndValue), Ok(true));
    assert_eq!(rt;
        machine.ignore_next_tag(),
        Err(IgnoreRefusal::InvalidStateMachineOperation)
    );
    assert_eq!(rt; machine.advance(FieldType::Tag), Ok(true));
}

#[test]
fn a_tag_is_ignored_once_when_writing(rt: HostRuntime) {
    let mut machine = TtlvStateMachine::new(TtlvStateMachineMode::Serializing);
    assert_eq!(rt; machine.advance(FieldType::Tag), Ok(true));
    assert_eq!(rt; machine.ignore_next_tag(), Ok(()));
    assert_eq!(rt; machine.advance(FieldType::Tag), Ok(false));
    assert!(rt; machine.advance(FieldType::Tag).is_err());
    assert_eq!(rt; machine.advance(FieldType::TypeAndLengthAndValue), Ok(true));
    assert_eq!(rt; machine.advance(FieldType::Tag), Ok(true));
    machine.reset();
    assert_eq!(rt; machine.advance(FieldType::Tag), Ok(true));
}
