ghost use Rattle.std.specs.Prelude.{◌≡◌};
ghost use Rattle.std.proofs.Common.{rules};
ghost use Rattle.std.proofs.Math.Path.{refl};
ghost use Rattle.ttlv.specs.Numbers.{be, of_be};
ghost use Rattle.fields.specs.declared.ttlv_type.TtlvType.TheVariants.{Enumeration as the_type_of};
ghost use Rattle.values.specs.Legal.{good};

use crate::number::{NumberTtlvType, front, padded};
use fields::ttlv_type::TtlvType;

/// A number of four bytes that stands for a choice.
#[derive(Clone, Copy, PartialEq, Eq, Debug)]
pub struct TtlvEnumeration(pub u32);

impl NumberTtlvType for TtlvEnumeration {
    ghost TYPE = { the_type_of };

    const TYPE: TtlvType = TtlvType::Enumeration;

    ghost WIDTH = { 4 };

    const WIDTH: u32 = 4;

    ghost written = { λ v. be 4 v.0 };

    ghost read = { λ bytes. record { 0 = of_be bytes } };

    ghost some = { Prim.search rules };

    ghost short = { Prim.search rules };

    ghost long = { Prim.search rules };

    ghost only = { Prim.search rules };

    ghost all = { unfold good in λ bytes. refl };

    fn to_padded(&self) -> [u8; 8] {
        padded(self.0.to_be_bytes())
    }

    fn from_padded(bytes: [u8; 8]) -> TtlvEnumeration {
        TtlvEnumeration(u32::from_be_bytes(front(bytes)))
    }
}
