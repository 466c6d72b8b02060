ghost use Rattle.std.specs.Prelude.{◌≡◌, Some};
ghost use Rattle.reading.specs.Refusals.{fault_number, fault_text};
ghost use Rattle.reading.specs.declared.refusals.ValueFault.TheVariants.{Source as from_source, Value as from_value};

use std::error::Error;
use std::fmt;
use streams::refusals::ReadRefusal;
use values::refusals::ValueRefusal;

/// Why a value is not read, with its cause.
#[derive(Clone, Copy, PartialEq, Eq, Debug)]
pub enum ValueFault {
    /// The source ended in the length, in the value or in the padding.
    Source(ReadRefusal),
    /// The length or the bytes are none of the kind.
    Value(ValueRefusal),
    /// The scratch is shorter than the value.
    ScratchTooShort { needed: usize },
}

impl ValueFault {
    /// The number under which the fault is told.
    pub fn number(&self) -> u8
        ensures { result ≡ fault_number self.now }
    {
        match self {
            ValueFault::Source(cause) => cause.number(),
            ValueFault::Value(cause) => cause.number(),
            ValueFault::ScratchTooShort { .. } => 21,
        }
    }
}

// one for each case, by hand: clauses name the case that `?` makes
impl From<ReadRefusal> for ValueFault {
    ghost from_gives = { λ e r. r ≡ from_source e };

    fn from(ended: ReadRefusal) -> ValueFault {
        ValueFault::Source(ended)
    }
}

impl From<ValueRefusal> for ValueFault {
    ghost from_gives = { λ e r. r ≡ from_value e };

    fn from(refusal: ValueRefusal) -> ValueFault {
        ValueFault::Value(refusal)
    }
}

impl fmt::Display for ValueFault {
    ghost output = { λ e. Some (fault_text e) };

    fn fmt<W: fmt::Write>(&self, f: &mut fmt::Formatter<W>) -> fmt::Result {
        match self {
            ValueFault::Source(cause) => write!(f, "{cause}"),
            ValueFault::Value(cause) => write!(f, "{cause}"),
            ValueFault::ScratchTooShort { needed } => write!(
                f,
                "refused 21: the scratch is shorter than the value of {needed} bytes"
            ),
        }
    }
}

impl Error for ValueFault {}
