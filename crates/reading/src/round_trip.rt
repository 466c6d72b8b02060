ghost use Rattle.std.specs.Prelude.{◌≡◌, Some};
ghost use Rattle.ttlv.specs.Kinds.{ExtensionKeepsTheNumber};
ghost use Rattle.reading.specs.Refusals.{trip_number, trip_text};
ghost use Rattle.reading.specs.Trips.{RoundTrip, FixedTrip};
ghost use Rattle.reading.specs.declared.round_trip.RoundTripFault.TheVariants.{Write as from_write, Read as from_read};

use crate::fixed::read_fixed;
use crate::read::read_value;
use crate::refusals::ValueFault;
use std::error::Error;
use std::fmt;
use streams::sink::Sink;
use streams::sink_source::SinkSource;
use values::refusals::WriteRefusal;
use values::spelt::{SpeltTtlvType, write_fixed};
use values::value::SerializableTtlvType;
use values::write::write_value;

/// Why a value is not written and read back.
#[derive(Clone, Copy, PartialEq, Eq, Debug)]
pub enum RoundTripFault {
    /// It is not written.
    Write(WriteRefusal),
    /// It is written, and not read.
    Read(ValueFault),
}

impl RoundTripFault {
    /// The number under which the fault is told.
    pub fn number(&self) -> u8
        ensures { result ≡ trip_number self.now }
    {
        match self {
            RoundTripFault::Write(cause) => cause.number(),
            RoundTripFault::Read(cause) => cause.number(),
        }
    }
}

impl From<WriteRefusal> for RoundTripFault {
    ghost from_gives = { λ e r. r ≡ from_write e };

    fn from(refusal: WriteRefusal) -> RoundTripFault {
        RoundTripFault::Write(refusal)
    }
}

impl From<ValueFault> for RoundTripFault {
    ghost from_gives = { λ e r. r ≡ from_read e };

    fn from(fault: ValueFault) -> RoundTripFault {
        RoundTripFault::Read(fault)
    }
}

impl fmt::Display for RoundTripFault {
    ghost output = { λ e. Some (trip_text e) };

    fn fmt<W: fmt::Write>(&self, f: &mut fmt::Formatter<W>) -> fmt::Result {
        match self {
            RoundTripFault::Write(cause) => write!(f, "{cause}"),
            RoundTripFault::Read(cause) => write!(f, "{cause}"),
        }
    }
}

impl Error for RoundTripFault {}

// a value and where it goes are no struct: to put them together is the call
/// Writes a value to a sink, reads it back from there into a scratch, and answers its length. What comes back of a Big Integer is extended by its
/// sign, and the same number.
pub fn write_and_read_back<V: SerializableTtlvType, S: Sink>(
    v: &V,
    dst: &mut S,
    scratch: &mut [u8],
) -> Result<usize, RoundTripFault>
    ensures trip { RoundTrip (V.value v.now) (S.store dst.old) (S.store dst.new) scratch.old scratch.new result }
    ensures number { ExtensionKeepsTheNumber }
{
    let at = dst.count();
    write_value(v, dst)?;
    let len = read_value(&mut SinkSource::new(dst, at), v.ttlv_type(), scratch)?;
    Ok(len)
}

// value and sink likewise; `write_and_read_back` answers a length and fills a scratch, and the two calls that both make are all they share
/// Writes a value of fixed length to a sink, and reads it back from there: it is that value.
pub fn write_and_read_fixed<V: SpeltTtlvType, S: Sink>(
    v: &V,
    dst: &mut S,
) -> Result<V, RoundTripFault>
    ensures { FixedTrip v.now (V.SerializableTtlvType.value v.now) (S.store dst.old) (S.store dst.new) result }
{
    let at = dst.count();
    write_fixed(v, dst)?;
    let read = read_fixed(&mut SinkSource::new(dst, at))?;
    Ok(read)
}
