ghost use Rattle.std.specs.Prelude.{◌≡◌, ℕ, List, length};
ghost use Rattle.streams.specs.Sinks.{Puts};
ghost use Rattle.ttlv.specs.Kinds.{Legal};
ghost use Rattle.fields.specs.declared.ttlv_type.TtlvType.{TtlvType};
ghost use Rattle.fields.specs.Types.{type_byte};

use fields::ttlv_type::TtlvType;
use streams::refusals::PutRefusal;
use streams::sink::Sink;

/// A value of some kind: its type, and the bytes that it is written as.
pub trait SerializableTtlvType {
    /// The type.
    ghost kind: { Self → TtlvType };

    /// The value bytes, as written.
    ghost value: { Self → List ℕ };

    /// The type.
    fn ttlv_type(&self) -> TtlvType
        ensures { result ≡ kind self.now };

    /// How many value bytes there are; they are legal by the table of kinds.
    fn value_len(&self) -> usize
        ensures len { result ≡ length (value self.now) }
        ensures legal { Legal (type_byte (kind self.now)) (value self.now) };

    /// Puts the value bytes, all or none.
    fn put_value<S: Sink>(&self, dst: &mut S) -> Result<(), PutRefusal>
        ensures { Puts (S.store dst.old) (S.store dst.new) (value self.now) result };
}
