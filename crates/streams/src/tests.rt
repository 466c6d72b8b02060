// Examples at the edges; read under #[cfg(test)] alone.
use crate::buffer_sink::BufferSink;
use crate::exact::read_exact;
use crate::refusals::{PlaceRefusal, PutRefusal, ReadRefusal};
use crate::sink::Sink;
use crate::sink_source::SinkSource;
use crate::slice_source::SliceSource;
use crate::source::Source;
use crate::text::put_text;
use crate::vec_sink::VecSink;
use std::test::Fail;

#[test]
fn a_read_into_no_buffer_takes_nothing(rt: HostRuntime) {
    let mut src = SliceSource::new(b"ab");
    let mut none = [0u8; 0];
    assert_eq!(rt; src.read(&mut none), 0);
    let mut all = [0u8; 2];
    assert_eq!(rt; src.read(&mut all), 2);
    assert!(rt; &all == b"ab");
}

#[test]
fn a_read_keeps_the_rest_of_the_buffer(rt: HostRuntime) {
    let mut src = SliceSource::new(b"ab");
    let mut buf = [7u8; 4];
    assert_eq!(rt; src.read(&mut buf), 2);
    assert!(rt; &buf == b"ab\x07\x07");
    assert_eq!(rt; src.read(&mut buf), 0);
    assert!(rt; &buf == b"ab\x07\x07");
}

#[test]
fn an_exact_read_is_served_to_the_last_byte(rt: HostRuntime) {
    let mut src = SliceSource::new(b"abcd");
    let mut buf = [0u8; 4];
    assert_eq!(rt; read_exact(&mut src, &mut buf), Ok(()));
    assert!(rt; &buf == b"abcd");
    let mut none = [0u8; 0];
    assert_eq!(rt; read_exact(&mut src, &mut none), Ok(()));
}

#[test]
fn an_exact_read_past_the_end_takes_what_is_left(rt: HostRuntime) {
    let mut src = SliceSource::new(b"abc");
    let mut buf = [9u8; 5];
    let ended = ReadRefusal::Ended { taken: 3 };
    assert_eq!(rt; read_exact(&mut src, &mut buf), Err(ended));
    assert!(rt; &buf == b"abc\x09\x09");
    assert_eq!(rt; ended.number(), 1);
    assert_eq!(rt; src.read(&mut buf), 0);
}

#[test]
fn a_buffer_exactly_full_refuses_one_byte_more(rt: HostRuntime) {
    let mut buf = [9u8; 4];
    let mut sink = BufferSink::new(&mut buf);
    assert_eq!(rt; sink.put(b"ab"), Ok(()));
    assert_eq!(rt; sink.put(b"cde"), Err(PutRefusal::NoRoom));
    assert_eq!(rt; sink.put(b"cd"), Ok(()));
    assert_eq!(rt; sink.put(b"e"), Err(PutRefusal::NoRoom));
    assert_eq!(rt; sink.put(b""), Ok(()));
    assert_eq!(rt; sink.room(), 0);
    assert!(rt; sink.bytes() == b"abcd".as_slice());
}

#[test]
fn a_patch_stays_within_what_is_held(rt: HostRuntime) {
    let mut buf = [9u8; 6];
    let mut sink = BufferSink::new(&mut buf);
    assert_eq!(rt; sink.put(b"abcd"), Ok(()));
    assert_eq!(rt; sink.patch(2, b"XY"), Ok(()));
    assert_eq!(rt; sink.patch(3, b"XY"), Err(PlaceRefusal::OutOfRange));
    assert_eq!(rt; sink.patch(4, b""), Ok(()));
    assert_eq!(rt; sink.patch(5, b""), Err(PlaceRefusal::OutOfRange));
    assert_eq!(rt; sink.byte_at(3), Ok(b'Y'));
    assert_eq!(rt; sink.byte_at(4), Err(PlaceRefusal::OutOfRange));
    assert_eq!(rt; sink.room(), 2);
    assert!(rt; &buf == b"abXY\x09\x09");
}

#[test]
fn a_text_fills_the_room_that_there_is(rt: HostRuntime) {
    let mut buf = [9u8; 4];
    let mut sink = BufferSink::new(&mut buf);
    assert_eq!(rt; put_text(&mut sink, b"abc"), Ok(()));
    assert_eq!(rt; put_text(&mut sink, b"def"), Err(PutRefusal::NoRoom));
    assert!(rt; sink.bytes() == b"abcd".as_slice());
    assert_eq!(rt; put_text(&mut sink, b""), Ok(()));
}

#[test]
fn an_owned_buffer_has_the_room_that_was_reserved(rt: HostRuntime) -> Result<(), Fail> {
    let mut sink = VecSink::with_room(rt.alloc(), 5)?;
    assert_eq!(rt; sink.room(), 5);
    assert_eq!(rt; sink.put(b"abc"), Ok(()));
    assert_eq!(rt; sink.put(b"def"), Err(PutRefusal::NoRoom));
    assert_eq!(rt; sink.patch(1, b"YZ"), Ok(()));
    assert_eq!(rt; sink.patch(2, b"YZ"), Err(PlaceRefusal::OutOfRange));
    assert_eq!(rt; sink.byte_at(2), Ok(b'Z'));
    assert_eq!(rt; sink.byte_at(3), Err(PlaceRefusal::OutOfRange));
    assert_eq!(rt; sink.put(b"de"), Ok(()));
    assert_eq!(rt; sink.room(), 0);
    assert!(rt; sink.bytes() == b"aYZde".as_slice());
    Ok(())
}

#[test]
fn what_a_sink_holds_is_a_source(rt: HostRuntime) -> Result<(), Fail> {
    let mut sink = VecSink::with_room(rt.alloc(), 8)?;
    assert_eq!(rt; sink.put(b"abcde"), Ok(()));
    let mut src = SinkSource::new(&sink, 1);
    let mut buf = [9u8; 3];
    assert_eq!(rt; src.read(&mut buf), 3);
    assert!(rt; &buf == b"bcd");
    assert_eq!(rt; src.read(&mut buf), 1);
    assert!(rt; &buf == b"ecd");
    assert_eq!(rt; src.read(&mut buf), 0);
    Ok(())
}

#[test]
fn refusals_say_their_number(rt: HostRuntime) {
    assert_eq!(rt; PutRefusal::NoRoom.number(), 8);
    assert_eq!(rt; PlaceRefusal::OutOfRange.number(), 23);
}

fn put_in_both(first: &mut [u8], second: &mut [u8]) -> usize {
    let mut sinks = [BufferSink::new(first), BufferSink::new(second)];
    let _ = sinks[0].put(b"ab");
    let _ = sinks[1].put(b"c");
    sinks[0].count()
}

#[test]
fn sinks_over_buffers_stand_in_an_array(rt: HostRuntime) {
    let mut first = [9u8; 3];
    let mut second = [9u8; 2];
    assert_eq!(rt; put_in_both(&mut first, &mut second), 2);
    assert!(rt; &first == b"ab\x09");
    assert!(rt; &second == b"c\x09");
}

/// A source over any sink, named without a bound.
#[derive(Drop)]
struct Counted<'a, S> {
    src: SinkSource<'a, S>,
    taken: usize,
}

#[test]
fn a_source_over_a_sink_is_named_without_a_bound(rt: HostRuntime) -> Result<(), Fail> {
    let mut sink = VecSink::with_room(rt.alloc(), 2)?;
    assert_eq!(rt; sink.put(b"ab"), Ok(()));
    let mut counted = Counted {
        src: SinkSource::new(&sink, 0),
        taken: 0,
    };
    let mut buf = [9u8; 3];
    counted.taken += counted.src.read(&mut buf);
    assert_eq!(rt; counted.taken, 2);
    assert!(rt; &buf == b"ab\x09");
    Ok(())
}
