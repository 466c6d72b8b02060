ghost use Rattle.std.specs.Prelude.{◌≡◌, true, length, take};
ghost use Rattle.ttlv.specs.Kinds.{fits};
ghost use Rattle.fields.specs.Types.{type_byte};
ghost use Rattle.reading.specs.Parts.{PassesText, ReadsBytes, long_judged};
ghost use Rattle.reading.specs.Reads.{printed};

use crate::refusals::ValueFault;
use crate::value_parts::read_value_bytes;
use fields::ttlv_type::TtlvType;
use streams::refusals::ReadRefusal;
use streams::source::Source;
use text::utf8::Utf8;
use values::legal::check_length;
use values::refusals::ValueRefusal;

/// Passes over `n` bytes in constant memory, and tells what they are as text.
pub fn pass_over<R: Source>(src: &mut R, n: usize) -> Result<Utf8, ReadRefusal>
    ensures { PassesText (R.ahead src.old) (R.ahead src.new) n result }
{
    let mut seen = Utf8::Start;
    // the source chooses how many bytes come at a time, and the refusal tells the count
    let mut taken = 0;
    while taken < n {
        let mut part = [0u8; 256];
        let most = part.len().min(n - taken);
        let some = &mut part[0..most];
        let m = src.read(some);
        if m == 0 {
            return Err(ReadRefusal::Ended { taken });
        }
        seen = seen.run(&some[0..m]);
        taken += m;
    }
    Ok(seen)
}

// kind and bytes are what is asked
/// The number of an Enumeration.
fn number_of(kind: TtlvType, bytes: &[u8]) -> Option<u32>
    ensures { fits (type_byte kind) (length bytes.now) ≡ true → result ≡ printed (type_byte kind) bytes.now }
{
    match kind {
        TtlvType::Enumeration => bytes.as_array().map(|four| u32::from_be_bytes(*four)),
        _ => None,
    }
}

/// Refuses bytes that are none of the kind, by their length and by what they are as text; no other kind of more than eight bytes is looked at.
fn check_long(kind: TtlvType, len: usize, seen: Utf8) -> Result<(), ValueRefusal>
    ensures { result ≡ long_judged kind len seen }
{
    check_length(kind, len)?;
    match kind {
        TtlvType::TextString if !seen.is_whole() => Err(ValueRefusal::InvalidTtlvValue { kind }),
        _ => Ok(()),
    }
}

/// Passes over the bytes of a value in constant memory, refuses those that are none of the kind, and answers what is printed of them.
pub fn pass_value_bytes<R: Source>(
    src: &mut R,
    kind: TtlvType,
    len: usize,
) -> Result<Option<u32>, ValueFault>
    ensures { ReadsBytes (printed (type_byte kind) (take len (R.ahead src.old))) kind len (R.ahead src.old) (R.ahead src.new) result }
{
    if len > 8 {
        let seen = pass_over(src, len)?;
        check_long(kind, len, seen)?;
        return Ok(None);
    }
    let mut eight = [0u8; 8];
    let value = &mut eight[0..len];
    read_value_bytes(src, kind, value)?;
    Ok(number_of(kind, value))
}
