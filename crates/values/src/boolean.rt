ghost use Rattle.ttlv.specs.Kinds.{truth_bytes};
ghost use Rattle.values.specs.Legal.{Makes};
ghost use Rattle.fields.specs.declared.ttlv_type.TtlvType.TheVariants.{Boolean as boolean};

use crate::legal::check_value;
use crate::refusals::ValueRefusal;
use crate::value::SerializableTtlvType;
use fields::ttlv_type::TtlvType;
use streams::refusals::PutRefusal;
use streams::sink::Sink;

/// True or false, in eight bytes.
#[derive(Clone, Copy, PartialEq, Eq, Debug)]
pub struct TtlvBoolean(pub bool);

/// Makes a Boolean of its bytes.
impl TryFrom<&[u8]> for TtlvBoolean {
    type Error = ValueRefusal;

    ghost try_from_gives = { λ bytes r. Makes (λ v. truth_bytes v.0) boolean bytes.now r };

    fn try_from(bytes: &[u8]) -> Result<TtlvBoolean, ValueRefusal> {
        check_value(TtlvType::Boolean, bytes)?;
        Ok(TtlvBoolean(bytes[7] == 1))
    }
}

impl SerializableTtlvType for TtlvBoolean {
    ghost kind = { λ _. boolean };

    ghost value = { λ v. truth_bytes v.0 };

    fn ttlv_type(&self) -> TtlvType {
        TtlvType::Boolean
    }

    fn value_len(&self) -> usize {
        8
    }

    fn put_value<S: Sink>(&self, dst: &mut S) -> Result<(), PutRefusal> {
        dst.put(&u64::from(self.0).to_be_bytes())
    }
}
