// Examples at the edges; read under #[cfg(test)] alone.
use crate::big_integer::TtlvBigInteger;
use crate::boolean::TtlvBoolean;
use crate::date_time::TtlvDateTime;
use crate::enumeration::TtlvEnumeration;
use crate::integer::TtlvInteger;
use crate::long_integer::TtlvLongInteger;
use crate::refusals::{ValueRefusal, WriteRefusal};
use crate::strings::{TtlvByteString, TtlvTextString};
use crate::ttlv_value::TtlvValue;
use crate::value::SerializableTtlvType;
use crate::write::write_value;
use fields::ttlv_type::TtlvType;
use std::process::Abort;
use std::test::Fail;
use streams::buffer_sink::BufferSink;

// Writes a value, and holds what stands in the sink against `bytes`.
fn writes<V: SerializableTtlvType>(rt: &impl Abort, v: &V, bytes: &[u8]) {
    let mut buf = [9u8; 32];
    let mut sink = BufferSink::new(&mut buf);
    assert_eq!(rt; write_value(v, &mut sink), Ok(()));
    assert!(rt; sink.bytes() == bytes);
}

#[test]
fn fixed_kinds_are_written_as_the_standard_shows(rt: HostRuntime) {
    writes(
        &rt,
        &TtlvInteger(8),
        b"\x00\x00\x00\x04\x00\x00\x00\x08\x00\x00\x00\x00",
    );
    writes(
        &rt,
        &TtlvInteger(-1),
        b"\x00\x00\x00\x04\xFF\xFF\xFF\xFF\x00\x00\x00\x00",
    );
    writes(
        &rt,
        &TtlvLongInteger(123456789000000000),
        b"\x00\x00\x00\x08\x01\xB6\x9B\x4B\xA5\x74\x92\x00",
    );
    writes(
        &rt,
        &TtlvEnumeration(255),
        b"\x00\x00\x00\x04\x00\x00\x00\xFF\x00\x00\x00\x00",
    );
    writes(
        &rt,
        &TtlvBoolean(true),
        b"\x00\x00\x00\x08\x00\x00\x00\x00\x00\x00\x00\x01",
    );
    writes(
        &rt,
        &TtlvDateTime(0x47DA67F8),
        b"\x00\x00\x00\x08\x00\x00\x00\x00\x47\xDA\x67\xF8",
    );
}

#[test]
fn strings_and_big_integers_are_written_as_the_standard_shows(rt: HostRuntime) {
    writes(
        &rt,
        &TtlvTextString("Hello World"),
        b"\x00\x00\x00\x0BHello World\x00\x00\x00\x00\x00",
    );
    writes(
        &rt,
        &TtlvByteString(b"\x01\x02\x03"),
        b"\x00\x00\x00\x03\x01\x02\x03\x00\x00\x00\x00\x00",
    );
    writes(&rt, &TtlvByteString(b""), b"\x00\x00\x00\x00");
    writes(
        &rt,
        &TtlvBigInteger(b"\x80"),
        b"\x00\x00\x00\x08\xFF\xFF\xFF\xFF\xFF\xFF\xFF\x80",
    );
    writes(
        &rt,
        &TtlvBigInteger(b"\x00\x80"),
        b"\x00\x00\x00\x08\x00\x00\x00\x00\x00\x00\x00\x80",
    );
    writes(&rt, &TtlvBigInteger(b""), b"\x00\x00\x00\x00");
}

#[test]
fn a_value_is_written_whole_or_not_at_all(rt: HostRuntime) {
    let mut buf = [9u8; 11];
    let mut sink = BufferSink::new(&mut buf);
    assert_eq!(rt;
        write_value(&TtlvInteger(8), &mut sink),
        Err(WriteRefusal::NoRoom)
    );
    assert!(rt; &buf == b"\x09\x09\x09\x09\x09\x09\x09\x09\x09\x09\x09");
}

// Makes a value of a kind of bytes, and holds what it is written as against `written`.
fn makes(rt: &impl Abort, kind: TtlvType, bytes: &[u8], written: &[u8]) -> Result<(), Fail> {
    let Ok(v) = TtlvValue::from_bytes(kind, bytes) else {
        assert!(rt; false);
        return Ok(());
    };
    assert_eq!(rt; v.ttlv_type(), kind);
    writes(rt, &v, written);
    Ok(())
}

// The number under which making a value is refused, 0 if it is not.
fn refusal_of(kind: TtlvType, bytes: &[u8]) -> u8 {
    match TtlvValue::from_bytes(kind, bytes) {
        Ok(_) => 0,
        Err(e) => e.number(),
    }
}

#[test]
fn a_value_of_each_kind_is_made_of_its_bytes(rt: HostRuntime) -> Result<(), Fail> {
    makes(
        &rt,
        TtlvType::Integer,
        b"\xFF\xFF\xFF\xFE",
        b"\x00\x00\x00\x04\xFF\xFF\xFF\xFE\x00\x00\x00\x00",
    )?;
    makes(
        &rt,
        TtlvType::LongInteger,
        b"\x80\x00\x00\x00\x00\x00\x00\x01",
        b"\x00\x00\x00\x08\x80\x00\x00\x00\x00\x00\x00\x01",
    )?;
    makes(
        &rt,
        TtlvType::BigInteger,
        b"\x80",
        b"\x00\x00\x00\x08\xFF\xFF\xFF\xFF\xFF\xFF\xFF\x80",
    )?;
    makes(
        &rt,
        TtlvType::Enumeration,
        b"\xFF\x00\x00\x01",
        b"\x00\x00\x00\x04\xFF\x00\x00\x01\x00\x00\x00\x00",
    )?;
    makes(
        &rt,
        TtlvType::Boolean,
        b"\x00\x00\x00\x00\x00\x00\x00\x01",
        b"\x00\x00\x00\x08\x00\x00\x00\x00\x00\x00\x00\x01",
    )?;
    makes(
        &rt,
        TtlvType::TextString,
        b"\xC3\xA9",
        b"\x00\x00\x00\x02\xC3\xA9\x00\x00\x00\x00\x00\x00",
    )?;
    makes(
        &rt,
        TtlvType::ByteString,
        b"\xC0\x80",
        b"\x00\x00\x00\x02\xC0\x80\x00\x00\x00\x00\x00\x00",
    )?;
    makes(
        &rt,
        TtlvType::DateTime,
        b"\x00\x00\x00\x00\x47\xDA\x67\xF8",
        b"\x00\x00\x00\x08\x00\x00\x00\x00\x47\xDA\x67\xF8",
    )
}

#[test]
fn no_value_is_made_of_other_bytes(rt: HostRuntime) {
    assert_eq!(rt;
        TtlvBoolean::try_from(b"\x00\x00\x00\x00\x00\x00\x00\x02".as_slice()),
        Err(ValueRefusal::InvalidTtlvValue {
            kind: TtlvType::Boolean,
        })
    );
    assert_eq!(rt;
        TtlvBoolean::try_from(b"\x00\x00\x00\x01".as_slice()),
        Err(ValueRefusal::InvalidTtlvValueLength {
            expected: 8,
            actual: 4,
            kind: TtlvType::Boolean,
        })
    );
    assert_eq!(rt;
        refusal_of(TtlvType::Boolean, b"\x00\x00\x00\x00\x00\x00\x00\x02"),
        5
    );
    assert_eq!(rt; refusal_of(TtlvType::TextString, b"\xC0\x80"), 5);
    assert_eq!(rt; refusal_of(TtlvType::Integer, b"\x00\x00\x01"), 4);
    assert_eq!(rt; refusal_of(TtlvType::Structure, b""), 5);
}
