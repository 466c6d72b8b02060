ghost use Rattle.streams.specs.Sources.{Reads};

use crate::refusals::ReadRefusal;
use crate::source::Source;

/// Fills `buf` from `src`, or takes all that is left of it.
pub fn read_exact<S: Source>(src: &mut S, buf: &mut [u8]) -> Result<(), ReadRefusal>
    ensures { Reads (S.ahead src.old) (S.ahead src.new) buf.old buf.new result }
{
    // the source chooses how many bytes come at a time, and the refusal tells the count
    let mut taken = 0;
    while taken < buf.len() {
        let m = src.read(&mut buf[taken..]);
        if m == 0 {
            return Err(ReadRefusal::Ended { taken });
        }
        taken += m;
    }
    Ok(())
}
