ghost use Rattle.std.specs.Prelude.{◌≡◌};
ghost use Rattle.ttlv.specs.Kinds.{extended, sign_byte};
ghost use Rattle.fields.specs.declared.ttlv_type.TtlvType.TheVariants.{BigInteger as big_integer_type};

use crate::padding::padding_of;
use crate::value::SerializableTtlvType;
use fields::ttlv_type::TtlvType;
use streams::refusals::PutRefusal;
use streams::sink::Sink;

/// A number of any length in two's complement, the highest byte first.
#[derive(Clone, Copy)]
pub struct TtlvBigInteger<'a>(pub &'a [u8]);

/// The byte that extends a number in front.
fn sign_of(bytes: &[u8]) -> u8
    ensures { result ≡ sign_byte bytes.now }
{
    match bytes {
        [first, ..] if *first >= 0x80 => 0xFF,
        _ => 0x00,
    }
}

impl SerializableTtlvType for TtlvBigInteger<'_> {
    ghost kind = { λ _. big_integer_type };

    ghost value = { λ v. extended v.0.now };

    fn ttlv_type(&self) -> TtlvType {
        TtlvType::BigInteger
    }

    fn value_len(&self) -> usize {
        self.0.len() + padding_of(self.0.len())
    }

    #[tactic(auto, using(crate::proofs::Putting::puts_then, crate::proofs::Putting::front_of))]
    fn put_value<S: Sink>(&self, dst: &mut S) -> Result<(), PutRefusal> {
        if self.value_len() > dst.room() {
            return Err(PutRefusal::NoRoom);
        }
        let front = [sign_of(self.0); 8];
        let pad = padding_of(self.0.len());
        dst.put(&front[0..pad])?;
        dst.put(self.0)
    }
}
