// Examples at the edges; read under #[cfg(test)] alone.
use crate::digits::{digit_value, digits, pair_or_zero, pair_value};
use crate::hex_sink::HexSink;
use crate::hex_source::HexSource;
use crate::write::{write_and_read_back, write_hex};
use std::process::Abort;
use streams::buffer_sink::BufferSink;
use streams::refusals::{PlaceRefusal, PutRefusal};
use streams::sink::Sink;
use streams::slice_source::SliceSource;
use streams::source::Source;

#[test]
fn digits_of_either_case_are_read_and_uppercase_is_written(rt: HostRuntime) {
    assert_eq!(rt; digit_value(b'f'), Some(15));
    assert_eq!(rt; digit_value(b'G'), None);
    assert_eq!(rt; pair_value(b'a', b'9'), Some(0xA9));
    assert_eq!(rt; pair_value(b'a', b' '), None);
    assert_eq!(rt; pair_or_zero(b'x', b'9'), 9);
    assert!(rt; &digits(0xAF) == b"AF");
}

#[test]
fn a_source_layer_reads_pairs_of_either_case(rt: HostRuntime) {
    let mut src = HexSource::new(SliceSource::new(b"42aBFf"));
    let mut none = [0u8; 0];
    assert_eq!(rt; src.read(&mut none), 0);
    let mut buf = [9u8; 4];
    assert_eq!(rt; src.read(&mut buf), 3);
    assert!(rt; &buf == b"\x42\xAB\xFF\x09");
    assert_eq!(rt; src.read(&mut buf), 0);
}

#[test]
fn a_source_layer_ends_for_good_at_a_broken_pair(rt: HostRuntime) {
    let mut src = HexSource::new(SliceSource::new(b"4 4200"));
    let mut buf = [9u8; 2];
    assert_eq!(rt; src.read(&mut buf), 0);
    assert_eq!(rt; src.read(&mut buf), 0);
    assert!(rt; &buf == b"\x09\x09");
    let mut left = src.into_below();
    assert_eq!(rt; left.read(&mut buf), 2);
    assert!(rt; &buf == b"42");
}

#[test]
fn a_source_layer_ends_at_a_digit_without_a_partner(rt: HostRuntime) {
    let mut src = HexSource::new(SliceSource::new(b"424"));
    let mut buf = [9u8; 2];
    assert_eq!(rt; src.read(&mut buf), 1);
    assert!(rt; &buf == b"\x42\x09");
    assert_eq!(rt; src.read(&mut buf), 0);
}

fn layered<S: Sink>(rt: &impl Abort, below: &mut S) {
    let mut sink = HexSink::new(below);
    assert_eq!(rt; sink.room(), 2);
    assert_eq!(rt; sink.put(b"\xAB\xCD\xEF"), Err(PutRefusal::NoRoom));
    assert_eq!(rt; sink.put(b"\xAB\xCD"), Ok(()));
    assert_eq!(rt; sink.put(b"\xEF"), Err(PutRefusal::NoRoom));
    assert_eq!(rt; sink.patch(1, b"\x0F"), Ok(()));
    assert_eq!(rt; sink.patch(2, b"\x0F"), Err(PlaceRefusal::OutOfRange));
    assert_eq!(rt; sink.byte_at(0), Ok(0xAB));
    assert_eq!(rt; sink.byte_at(2), Err(PlaceRefusal::OutOfRange));
    assert_eq!(rt; sink.count(), 2);
}

#[test]
fn a_sink_layer_writes_pairs_below(rt: HostRuntime) {
    let mut buf = [b'.'; 5];
    let mut below = BufferSink::new(&mut buf);
    layered(&rt, &mut below);
    assert_eq!(rt; below.room(), 1);
    assert!(rt; &buf == b"AB0F.");
}

fn over_odd<S: Sink>(rt: &impl Abort, below: &mut S) {
    let mut sink = HexSink::new(below);
    assert_eq!(rt; sink.count(), 1);
    assert_eq!(rt; sink.room(), 0);
    assert_eq!(rt; sink.put(b"\x00"), Err(PutRefusal::NoRoom));
    assert_eq!(rt; sink.put(b""), Ok(()));
    assert_eq!(rt; sink.byte_at(0), Ok(0x40));
    assert_eq!(rt; sink.byte_at(1), Err(PlaceRefusal::OutOfRange));
}

#[test]
fn a_sink_layer_over_an_odd_count_has_no_room(rt: HostRuntime) {
    let mut buf = [0u8; 9];
    let mut below = BufferSink::new(&mut buf);
    assert_eq!(rt; below.put(b"4?5"), Ok(()));
    over_odd(&rt, &mut below);
    assert!(rt; below.bytes() == b"4?5".as_slice());
}

#[test]
fn what_is_written_is_read_back(rt: HostRuntime) {
    let mut buf = [0u8; 9];
    let mut below = BufferSink::new(&mut buf);
    assert_eq!(rt; write_hex(&mut below, b"\x42"), Ok(()));
    let mut back = [9u8; 4];
    assert_eq!(rt;
        write_and_read_back(&mut below, b"\x00\xA5\xFF", &mut back),
        Ok(3)
    );
    assert!(rt; &back == b"\x00\xA5\xFF\x09");
    assert_eq!(rt;
        write_and_read_back(&mut below, b"\x00", &mut back),
        Err(PutRefusal::NoRoom)
    );
    assert!(rt; below.bytes() == b"4200A5FF".as_slice());
}
