ghost use Rattle.std.specs.Prelude.{◌≡◌, length, nat_le, MatchOption, ℕ, true, ◌==◌};
ghost use Rattle.ttlv.specs.Numbers.{of_be};
ghost use Rattle.ttlv.specs.Kinds.{fits};
ghost use Rattle.fields.specs.Types.{type_byte};
ghost use Rattle.values.specs.Legal.{fixed_length as the_length, length_judged, bytes_judged, DecidesGood};

use crate::refusals::ValueRefusal;
use fields::ttlv_type::TtlvType;
use text::utf8::is_text;

/// The length of every value of a kind, where all have one.
fn fixed_length(kind: TtlvType) -> Option<u32>
    ensures { MatchOption result ((n : ℕ) → fits (type_byte kind) n ≡ true) (λ len. (len ≡ the_length kind) × ((n : ℕ) → fits (type_byte kind) n ≡ (n == len))) }
{
    match kind {
        TtlvType::Integer | TtlvType::Enumeration => Some(4),
        TtlvType::LongInteger | TtlvType::Boolean | TtlvType::DateTime => Some(8),
        TtlvType::Structure | TtlvType::BigInteger | TtlvType::TextString | TtlvType::ByteString =>
            None,
    }
}

// kind and length are what is asked; put together they are what the refusal tells
/// Refuses a length that no value of the kind has.
pub fn check_length(kind: TtlvType, len: usize) -> Result<(), ValueRefusal>
    ensures { result ≡ length_judged kind len }
{
    match fixed_length(kind) {
        Some(expected) if len != expected as usize => Err(ValueRefusal::InvalidTtlvValueLength {
            expected,
            actual: len,
            kind,
        }),
        _ => Ok(()),
    }
}

/// Whether eight bytes spell 0 or 1.
#[tactic(auto, using(ttlv::proofs::Reading::of_be_8))]
fn is_truth(bytes: &[u8]) -> bool
    ensures { length bytes.now ≡ 8 → result ≡ nat_le (of_be bytes.now) 1 }
{
    bytes
        .as_array::<8>()
        .is_some_and(|eight| u64::from_be_bytes(*eight) <= 1)
}

// kind and bytes are what is asked; put together they are a value
/// Refuses bytes that are no value of the kind: for their length first, then for what they are.
#[tactic(auto, using(crate::proofs::Judging::decides_good), unfolding(crate::specs::Legal::good))]
pub fn check_value(kind: TtlvType, bytes: &[u8]) -> Result<(), ValueRefusal>
    ensures answer { result ≡ bytes_judged kind bytes.now }
    ensures law { DecidesGood }
{
    check_length(kind, bytes.len())?;
    match kind {
        TtlvType::Boolean if !is_truth(bytes) => Err(ValueRefusal::InvalidTtlvValue { kind }),
        TtlvType::TextString if !is_text(bytes) => Err(ValueRefusal::InvalidTtlvValue { kind }),
        _ => Ok(()),
    }
}
