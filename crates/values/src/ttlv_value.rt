ghost use Rattle.values.specs.Any.{any_kind, any_value, MakesAny};

use crate::big_integer::TtlvBigInteger;
use crate::boolean::TtlvBoolean;
use crate::date_time::TtlvDateTime;
use crate::enumeration::TtlvEnumeration;
use crate::integer::TtlvInteger;
use crate::long_integer::TtlvLongInteger;
use crate::refusals::ValueRefusal;
use crate::spelt::make_fixed;
use crate::strings::{TtlvByteString, TtlvTextString};
use crate::value::SerializableTtlvType;
use fields::ttlv_type::TtlvType;
use streams::refusals::PutRefusal;
use streams::sink::Sink;

/// A value of any kind, for lists of mixed values.
#[derive(Clone, Copy)]
pub enum TtlvValue<'a> {
    Integer(TtlvInteger),
    LongInteger(TtlvLongInteger),
    BigInteger(TtlvBigInteger<'a>),
    Enumeration(TtlvEnumeration),
    Boolean(TtlvBoolean),
    TextString(TtlvTextString<'a>),
    ByteString(TtlvByteString<'a>),
    DateTime(TtlvDateTime),
}

impl<'a> TtlvValue<'a> {
    // of a kind and bytes: two things, so no conversion
    /// Makes a value of a kind of its bytes.
    #[tactic(auto, unfolding(crate::specs::Legal::good))]
    pub fn from_bytes(kind: TtlvType, bytes: &'a [u8]) -> Result<TtlvValue<'a>, ValueRefusal>
        ensures { MakesAny kind bytes.now result }
    {
        match kind {
            TtlvType::Structure => Err(ValueRefusal::InvalidTtlvValue { kind }),
            TtlvType::Integer => Ok(TtlvValue::Integer(make_fixed(bytes)?)),
            TtlvType::LongInteger => Ok(TtlvValue::LongInteger(make_fixed(bytes)?)),
            TtlvType::BigInteger => Ok(TtlvValue::BigInteger(TtlvBigInteger(bytes))),
            TtlvType::Enumeration => Ok(TtlvValue::Enumeration(make_fixed(bytes)?)),
            TtlvType::Boolean => Ok(TtlvValue::Boolean(TtlvBoolean::try_from(bytes)?)),
            TtlvType::TextString => Ok(TtlvValue::TextString(TtlvTextString::try_from(bytes)?)),
            TtlvType::ByteString => Ok(TtlvValue::ByteString(TtlvByteString(bytes))),
            TtlvType::DateTime => Ok(TtlvValue::DateTime(make_fixed(bytes)?)),
        }
    }
}

// a match for each question: one of them is generic over sinks, so no `dyn` can ask it
impl SerializableTtlvType for TtlvValue<'_> {
    ghost kind = { any_kind };

    ghost value = { any_value };

    fn ttlv_type(&self) -> TtlvType {
        match self {
            TtlvValue::Integer(v) => v.ttlv_type(),
            TtlvValue::LongInteger(v) => v.ttlv_type(),
            TtlvValue::BigInteger(v) => v.ttlv_type(),
            TtlvValue::Enumeration(v) => v.ttlv_type(),
            TtlvValue::Boolean(v) => v.ttlv_type(),
            TtlvValue::TextString(v) => v.ttlv_type(),
            TtlvValue::ByteString(v) => v.ttlv_type(),
            TtlvValue::DateTime(v) => v.ttlv_type(),
        }
    }

    fn value_len(&self) -> usize {
        match self {
            TtlvValue::Integer(v) => v.value_len(),
            TtlvValue::LongInteger(v) => v.value_len(),
            TtlvValue::BigInteger(v) => v.value_len(),
            TtlvValue::Enumeration(v) => v.value_len(),
            TtlvValue::Boolean(v) => v.value_len(),
            TtlvValue::TextString(v) => v.value_len(),
            TtlvValue::ByteString(v) => v.value_len(),
            TtlvValue::DateTime(v) => v.value_len(),
        }
    }

    fn put_value<S: Sink>(&self, dst: &mut S) -> Result<(), PutRefusal> {
        match self {
            TtlvValue::Integer(v) => v.put_value(dst),
            TtlvValue::LongInteger(v) => v.put_value(dst),
            TtlvValue::BigInteger(v) => v.put_value(dst),
            TtlvValue::Enumeration(v) => v.put_value(dst),
            TtlvValue::Boolean(v) => v.put_value(dst),
            TtlvValue::TextString(v) => v.put_value(dst),
            TtlvValue::ByteString(v) => v.put_value(dst),
            TtlvValue::DateTime(v) => v.put_value(dst),
        }
    }
}
