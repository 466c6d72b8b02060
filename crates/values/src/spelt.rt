ghost use Rattle.std.specs.Prelude.{◌≡◌, ℕ, ◌-◌, ◌<◌, true, List, ◌++◌, take, replicate, ◌==◌};
ghost use Rattle.ttlv.specs.Kinds.{fits, value_item};
ghost use Rattle.fields.specs.declared.ttlv_type.TtlvType.{TtlvType};
ghost use Rattle.fields.specs.Types.{type_byte};
ghost use Rattle.values.specs.Legal.{good, MakesSpelt};
ghost use Rattle.values.specs.Writing.{Written, write_answer};

use crate::fixed::FixedLengthTtlvType;
use crate::legal::check_length;
use crate::refusals::{ValueRefusal, WriteRefusal};
use fields::ttlv_type::TtlvType;
use streams::sink::Sink;

/// A kind of fixed length, of at least one byte, of which each row of that many bytes spells one value.
pub trait SpeltTtlvType: FixedLengthTtlvType {
    /// The type of every value.
    ghost typed: { TtlvType };

    /// The value that bytes spell.
    ghost spelt: { List ℕ → Self };

    /// The type of every value.
    fn fixed_type() -> TtlvType
        ensures { result ≡ typed };

    /// The value bytes and their padding; they spell this value and no other.
    fn spell(&self) -> [u8; 8]
        ensures bytes { result ≡ Self.SerializableTtlvType.value self.now ++ replicate (8 - Self.FixedLengthTtlvType.fixed) 0 }
        ensures kind { Self.SerializableTtlvType.kind self.now ≡ typed }
        ensures back { spelt (Self.SerializableTtlvType.value self.now) ≡ self.now };

    /// The value that bytes spell, with some padding behind them.
    fn from_spelt(bytes: [u8; 8]) -> Self
        ensures spelt { result ≡ spelt (take Self.FixedLengthTtlvType.fixed bytes) }
        ensures value { Self.SerializableTtlvType.value result ≡ take Self.FixedLengthTtlvType.fixed bytes };

    ghost some: { 0 < Self.FixedLengthTtlvType.fixed };

    /// No other length is one of the kind, and all bytes of that length are values.
    ghost only: { (n : ℕ) → fits (type_byte typed) n ≡ (n == Self.FixedLengthTtlvType.fixed) };

    ghost all: { (bytes : List ℕ) → good (type_byte typed) bytes ≡ true };
}

// a value and where it goes are no struct: to put them together is the call
/// Writes a value of fixed length alone: its length, its bytes and its padding, all or nothing. The bytes spell this value and no other.
pub fn write_fixed<V: SpeltTtlvType, S: Sink>(v: &V, dst: &mut S) -> Result<(), WriteRefusal>
    ensures writes { Written (write_answer result) (S.store dst.old) (S.store dst.new) (value_item (V.SerializableTtlvType.value v.now)) }
    ensures back { V.SpeltTtlvType.spelt (V.SerializableTtlvType.value v.now) ≡ v.now }
{
    let eight = v.spell();
    if dst.room() < 12 {
        return Err(WriteRefusal::NoRoom);
    }
    dst.put(&V::fixed_len().to_be_bytes())?;
    dst.put(&eight)?;
    Ok(())
}

/// Makes a value of fixed length of its bytes.
pub fn make_fixed<V: SpeltTtlvType>(bytes: &[u8]) -> Result<V, ValueRefusal>
    ensures { MakesSpelt V.SerializableTtlvType.value V.SpeltTtlvType.spelt V.SpeltTtlvType.typed bytes.now result }
{
    check_length(V::fixed_type(), bytes.len())?;
    let mut eight = [0u8; 8];
    eight[0..bytes.len()].copy_from_slice(bytes);
    Ok(V::from_spelt(eight))
}
