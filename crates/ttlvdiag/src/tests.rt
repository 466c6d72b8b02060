// Examples at the edges; read under #[cfg(test)] alone.
use crate::report::report;
use std::test::Fail;

#[test]
fn lines_end_at_lf_and_at_the_end(rt: HostRuntime) -> Result<(), Fail> {
    let out = report(rt.alloc(), b"4200\n\n42 00\n0a")?;
    assert!(rt; out.as_bytes() == b"4200\n\n42\n0A\n".as_slice());
    let none = report(rt.alloc(), b"")?;
    assert!(rt; none.as_bytes() == b"".as_slice());
    let last = report(rt.alloc(), b"42\n")?;
    assert!(rt; last.as_bytes() == b"42\n".as_slice());
    Ok(())
}

#[test]
fn the_limit_is_the_last_length_that_is_looked_at(rt: HostRuntime) -> Result<(), Fail> {
    let full = vec![in rt.alloc(); b'\n'; 65536]?;
    let out = report(rt.alloc(), full.as_slice())?;
    assert_eq!(rt; out.len(), 65536);
    let more = vec![in rt.alloc(); b'\n'; 65537]?;
    let refused = report(rt.alloc(), more.as_slice())?;
    assert!(rt; refused.as_bytes() == b"too long\n".as_slice());
    Ok(())
}
