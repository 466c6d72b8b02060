ghost use Rattle.std.specs.Prelude.{◌≡◌, Some};
ghost use Rattle.faults.specs.Faults.{item_number, item_text, layer_of};
ghost use Rattle.faults.specs.declared.item_fault.ItemFault.TheVariants.{Source as from_source, Value as from_value, «Type» as from_type, Field as from_field};

use crate::layer::Layer;
use fields::refusals::{AdvanceRefusal, TypeRefusal};
use reading::refusals::ValueFault;
use std::error::Error;
use std::fmt;
use streams::refusals::ReadRefusal;

/// Why an item is not read, with its cause.
#[derive(Clone, Copy, PartialEq, Eq, Debug)]
pub enum ItemFault {
    /// The source ended in the header.
    Source(ReadRefusal),
    /// The value is not read.
    Value(ValueFault),
    /// The type byte is none that is handled.
    Type(TypeRefusal),
    /// Another field is expected.
    Field(AdvanceRefusal),
}

impl ItemFault {
    /// The number under which the fault is told.
    pub fn number(&self) -> u8
        ensures { result ≡ item_number self.now }
    {
        match self {
            ItemFault::Source(cause) => cause.number(),
            ItemFault::Value(cause) => cause.number(),
            ItemFault::Type(cause) => cause.number(),
            ItemFault::Field(cause) => cause.number(),
        }
    }

    /// The layer that the fault comes from.
    pub fn layer(&self) -> Layer
        ensures { result ≡ layer_of (item_number self.now) }
    {
        match self {
            ItemFault::Source(_) | ItemFault::Value(ValueFault::Source(_)) => Layer::Source,
            ItemFault::Type(_) | ItemFault::Field(_) => Layer::Item,
            ItemFault::Value(_) => Layer::Value,
        }
    }
}

// one for each case, by hand: clauses name the case that `?` makes
impl From<ReadRefusal> for ItemFault {
    ghost from_gives = { λ e r. r ≡ from_source e };

    fn from(ended: ReadRefusal) -> ItemFault {
        ItemFault::Source(ended)
    }
}

impl From<ValueFault> for ItemFault {
    ghost from_gives = { λ e r. r ≡ from_value e };

    fn from(fault: ValueFault) -> ItemFault {
        ItemFault::Value(fault)
    }
}

impl From<TypeRefusal> for ItemFault {
    ghost from_gives = { λ e r. r ≡ from_type e };

    fn from(refusal: TypeRefusal) -> ItemFault {
        ItemFault::Type(refusal)
    }
}

impl From<AdvanceRefusal> for ItemFault {
    ghost from_gives = { λ e r. r ≡ from_field e };

    fn from(refusal: AdvanceRefusal) -> ItemFault {
        ItemFault::Field(refusal)
    }
}

impl fmt::Display for ItemFault {
    ghost output = { λ e. Some (item_text e) };

    fn fmt<W: fmt::Write>(&self, f: &mut fmt::Formatter<W>) -> fmt::Result {
        match self {
            ItemFault::Source(cause) => write!(f, "{cause}"),
            ItemFault::Value(cause) => write!(f, "{cause}"),
            ItemFault::Type(cause) => write!(f, "{cause}"),
            ItemFault::Field(cause) => write!(f, "{cause}"),
        }
    }
}

impl Error for ItemFault {}
