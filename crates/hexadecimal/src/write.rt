ghost use Rattle.hexadecimal.specs.Layers.{WritesHex, ReadsBackHex};
ghost use Rattle.hexadecimal.specs.Laws.{ReadsWhatWasWritten};

use crate::hex_sink::HexSink;
use crate::hex_source::HexSource;
use streams::refusals::PutRefusal;
use streams::sink::Sink;
use streams::sink_source::SinkSource;
use streams::source::Source;

/// Writes `bytes` into `below` as uppercase digits.
pub fn write_hex<S: Sink>(below: &mut S, bytes: &[u8]) -> Result<(), PutRefusal>
    ensures { WritesHex (S.store below.old) (S.store below.new) bytes.now result }
{
    let mut layer = HexSink::new(below);
    layer.put(bytes)
}

/// Writes `bytes` into `below` as digits, and reads them back from there into `back`.
pub fn write_and_read_back<S: Sink>(
    below: &mut S,
    bytes: &[u8],
    back: &mut [u8],
) -> Result<usize, PutRefusal>
    ensures writes { WritesHex (S.store below.old) (S.store below.new) bytes.now result }
    ensures reads { ReadsBackHex bytes.now back.old back.new result }
    ensures law { ReadsWhatWasWritten }
{
    let from = below.count();
    write_hex(below, bytes)?;
    let mut written = HexSource::new(SinkSource::new(below, from));
    Ok(written.read(back))
}
