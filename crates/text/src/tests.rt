// Examples at the edges; read under #[cfg(test)] alone.
use crate::utf8::{Utf8, is_text};

#[test]
fn characters_of_one_to_four_bytes_are_text(rt: HostRuntime) {
    assert!(rt; is_text(b""));
    assert!(rt; is_text(b"\x00\x7F"));
    assert!(rt; is_text(b"\xC2\x80\xDF\xBF"));
    assert!(rt; is_text(b"\xE0\xA0\x80\xED\x9F\xBF\xEE\x80\x80\xEF\xBF\xBF"));
    assert!(rt; is_text(b"\xF0\x90\x80\x80\xF4\x8F\xBF\xBF"));
}

#[test]
fn overlong_forms_surrogates_and_more_are_not_text(rt: HostRuntime) {
    assert!(rt; !is_text(b"\xC0\x80"));
    assert!(rt; !is_text(b"\xC1\xBF"));
    assert!(rt; !is_text(b"\xE0\x9F\xBF"));
    assert!(rt; !is_text(b"\xF0\x8F\xBF\xBF"));
    assert!(rt; !is_text(b"\xED\xA0\x80"));
    assert!(rt; !is_text(b"\xF4\x90\x80\x80"));
    assert!(rt; !is_text(b"\xF5\x80\x80\x80"));
    assert!(rt; !is_text(b"\x80"));
}

#[test]
fn a_character_that_lacks_bytes_is_not_whole(rt: HostRuntime) {
    let seen = Utf8::Start.step(0xE2);
    assert_eq!(rt; seen, Utf8::Second(0xE2));
    assert!(rt; !seen.is_whole());
    let seen = seen.step(0x82);
    assert_eq!(rt; seen, Utf8::Tail1);
    let seen = seen.step(0xAC);
    assert!(rt; seen.is_whole());
}
