ghost use Rattle.streams.specs.Sinks.{Texts};

use crate::refusals::PutRefusal;
use crate::sink::Sink;

/// Puts `text` byte by byte, until it ends or the room does.
pub fn put_text<S: Sink>(dst: &mut S, text: &[u8]) -> Result<(), PutRefusal>
    ensures { Texts (S.store dst.old) (S.store dst.new) text.now result }
{
    for b in text {
        dst.put(&[*b])?;
    }
    Ok(())
}
