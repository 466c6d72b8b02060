ghost use Rattle.values.specs.Legal.{Makes};
ghost use Rattle.fields.specs.declared.ttlv_type.TtlvType.TheVariants.{TextString as text_string_type, ByteString as byte_string_type};

use crate::legal::check_value;
use crate::refusals::ValueRefusal;
use crate::value::SerializableTtlvType;
use fields::ttlv_type::TtlvType;
use streams::refusals::PutRefusal;
use streams::sink::Sink;

/// Bytes as they are.
#[derive(Clone, Copy)]
pub struct TtlvByteString<'a>(pub &'a [u8]);

/// Text, in UTF-8.
#[derive(Clone, Copy)]
pub struct TtlvTextString<'a>(pub &'a str);

/// Makes a text of its bytes.
impl<'a> TryFrom<&'a [u8]> for TtlvTextString<'a> {
    type Error = ValueRefusal;

    ghost try_from_gives = { λ bytes r. Makes (λ v. v.0.now) text_string_type bytes.now r };

    #[tactic(auto, using(crate::proofs::Textual::text_to))]
    fn try_from(bytes: &'a [u8]) -> Result<TtlvTextString<'a>, ValueRefusal> {
        check_value(TtlvType::TextString, bytes)?;
        // the decision was made above
        Ok(TtlvTextString(unsafe { std::str::from_utf8_unchecked(bytes) }))
    }
}

impl SerializableTtlvType for TtlvByteString<'_> {
    ghost kind = { λ _. byte_string_type };

    ghost value = { λ v. v.0.now };

    fn ttlv_type(&self) -> TtlvType {
        TtlvType::ByteString
    }

    fn value_len(&self) -> usize {
        self.0.len()
    }

    fn put_value<S: Sink>(&self, dst: &mut S) -> Result<(), PutRefusal> {
        dst.put(self.0)
    }
}

impl SerializableTtlvType for TtlvTextString<'_> {
    ghost kind = { λ _. text_string_type };

    ghost value = { λ v. v.0.now };

    fn ttlv_type(&self) -> TtlvType {
        TtlvType::TextString
    }

    #[tactic(auto, using(crate::proofs::Textual::text_from))]
    fn value_len(&self) -> usize {
        self.0.as_bytes().len()
    }

    fn put_value<S: Sink>(&self, dst: &mut S) -> Result<(), PutRefusal> {
        dst.put(self.0.as_bytes())
    }
}
