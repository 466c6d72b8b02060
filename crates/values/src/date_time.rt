ghost use Rattle.std.specs.Prelude.{◌≡◌};
ghost use Rattle.std.specs.Int.{w64};
ghost use Rattle.std.proofs.Common.{of_z, to_z, rules};
ghost use Rattle.std.proofs.Math.Path.{refl};
ghost use Rattle.ttlv.specs.Numbers.{be, of_be};
ghost use Rattle.fields.specs.declared.ttlv_type.TtlvType.TheVariants.{DateTime as the_type_of};
ghost use Rattle.values.specs.Legal.{good};

use crate::number::{NumberTtlvType, front, padded};
use fields::ttlv_type::TtlvType;

/// A time in seconds since 1970, signed, of eight bytes.
#[derive(Clone, Copy, PartialEq, Eq, Debug)]
pub struct TtlvDateTime(pub i64);

impl NumberTtlvType for TtlvDateTime {
    ghost TYPE = { the_type_of };

    const TYPE: TtlvType = TtlvType::DateTime;

    ghost WIDTH = { 8 };

    const WIDTH: u32 = 8;

    ghost written = { λ v. be 8 (of_z w64 v.0) };

    ghost read = { λ bytes. record { 0 = to_z w64 (of_be bytes) } };

    ghost some = { Prim.search rules };

    ghost short = { Prim.search rules };

    ghost long = { Prim.search rules };

    ghost only = { Prim.search rules };

    ghost all = { unfold good in λ bytes. refl };

    fn to_padded(&self) -> [u8; 8] {
        padded(self.0.to_be_bytes())
    }

    #[tactic(auto, using(ttlv::proofs::Reading::be_of_be))]
    fn from_padded(bytes: [u8; 8]) -> TtlvDateTime {
        TtlvDateTime(i64::from_be_bytes(front(bytes)))
    }
}
