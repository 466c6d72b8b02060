ghost use Rattle.std.specs.Prelude.{◌≡◌, ℕ, ◌-◌, ◌<◌, ◌≤◌, true, List, ◌++◌, length, take, replicate, ◌==◌};
ghost use Rattle.ttlv.specs.Kinds.{fits};
ghost use Rattle.fields.specs.declared.ttlv_type.TtlvType.{TtlvType};
ghost use Rattle.fields.specs.Types.{type_byte};
ghost use Rattle.values.specs.Legal.{good};

use crate::fixed::FixedLengthTtlvType;
use crate::spelt::SpeltTtlvType;
use crate::value::SerializableTtlvType;
use fields::ttlv_type::TtlvType;
use streams::refusals::PutRefusal;
use streams::sink::Sink;

// each kind states itself by an impl of its own: no macro writes ghost items, and an alias of one generic struct would make no value, as `TtlvInteger(8)` does
/// A kind whose values are numbers of a fixed length, of one to eight bytes, each row of that many bytes spelling one value.
pub trait NumberTtlvType: Sized {
    /// The type of every value.
    ghost TYPE: { TtlvType };

    /// The type of every value.
    const TYPE: TtlvType;

    /// The length of every value.
    ghost WIDTH: { ℕ };

    /// The length of every value.
    const WIDTH: u32;

    /// The value bytes.
    ghost written: { Self → List ℕ };

    /// The value that bytes spell.
    ghost read: { List ℕ → Self };

    /// The value bytes and their padding; they spell this value and no other.
    fn to_padded(&self) -> [u8; 8]
        ensures bytes { result ≡ written self.now ++ replicate (8 - WIDTH) 0 }
        ensures back { read (written self.now) ≡ self.now };

    /// The value that bytes spell, with some padding behind them.
    fn from_padded(bytes: [u8; 8]) -> Self
        ensures spelt { result ≡ read (take WIDTH bytes) }
        ensures bytes { written result ≡ take WIDTH bytes };

    ghost some: { 0 < WIDTH };

    ghost short: { WIDTH ≤ 8 };

    ghost long: { (v : Self) → length (written v) ≡ WIDTH };

    /// No other length is one of the kind, and all bytes of that length are values.
    ghost only: { (n : ℕ) → fits (type_byte TYPE) n ≡ (n == WIDTH) };

    ghost all: { (bytes : List ℕ) → good (type_byte TYPE) bytes ≡ true };
}

/// A number's bytes, filled up to eight with zeros behind them.
pub(crate) fn padded<const N: usize>(bytes: [u8; N]) -> [u8; 8]
    requires { N ≤ 8 }
    ensures { result ≡ bytes.entry ++ replicate (8 - N) 0 }
{
    let mut eight = [0u8; 8];
    eight[0..N].copy_from_slice(&bytes);
    eight
}

/// The first bytes of eight.
pub(crate) fn front<const N: usize>(bytes: [u8; 8]) -> [u8; N]
    requires { N ≤ 8 }
    ensures { result ≡ take N bytes }
{
    let mut part = [0u8; N];
    part.copy_from_slice(&bytes[0..N]);
    part
}

impl<V: NumberTtlvType> SerializableTtlvType for V {
    ghost kind = { λ _. V.TYPE };

    ghost value = { V.written };

    fn ttlv_type(&self) -> TtlvType {
        V::TYPE
    }

    fn value_len(&self) -> usize {
        V::WIDTH as usize
    }

    fn put_value<S: Sink>(&self, dst: &mut S) -> Result<(), PutRefusal> {
        let eight = self.to_padded();
        dst.put(&eight[0..V::WIDTH as usize])
    }
}

impl<V: NumberTtlvType> FixedLengthTtlvType for V {
    ghost fixed = { V.WIDTH };

    ghost short = { V.NumberTtlvType.short };

    ghost long = { V.NumberTtlvType.long };

    fn fixed_len() -> u32 {
        V::WIDTH
    }

    fn to_eight(&self) -> [u8; 8] {
        self.to_padded()
    }

    fn from_eight(bytes: [u8; 8]) -> V {
        V::from_padded(bytes)
    }
}

// both interfaces ask for the same bytes, each in its own words
impl<V: NumberTtlvType> SpeltTtlvType for V {
    ghost typed = { V.TYPE };

    ghost spelt = { V.read };

    ghost some = { V.NumberTtlvType.some };

    ghost only = { V.NumberTtlvType.only };

    ghost all = { V.NumberTtlvType.all };

    fn fixed_type() -> TtlvType {
        V::TYPE
    }

    fn spell(&self) -> [u8; 8] {
        self.to_padded()
    }

    fn from_spelt(bytes: [u8; 8]) -> V {
        V::from_padded(bytes)
    }
}
