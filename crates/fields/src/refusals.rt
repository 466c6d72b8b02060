ghost use Rattle.std.specs.Prelude.{◌≡◌, Some};
ghost use Rattle.fields.specs.Refusals.{type_number, advance_number, ignore_number, type_text, advance_text, ignore_text};

use crate::field_type::FieldType;
use std::error::Error;
use std::fmt;

/// Why a byte is refused as a type.
#[derive(Clone, Copy, PartialEq, Eq, Debug)]
pub enum TypeRefusal {
    /// A type of the standard that is not handled.
    Unsupported(u8),
    /// Not a type.
    Invalid(u8),
}

// each enum has its own table of numbers and texts, as the definitions have
impl TypeRefusal {
    /// The number under which the refusal is told.
    pub fn number(&self) -> u8
        ensures { result ≡ type_number self.now }
    {
        match self {
            TypeRefusal::Unsupported(_) => 2,
            TypeRefusal::Invalid(_) => 3,
        }
    }
}

impl fmt::Display for TypeRefusal {
    ghost output = { λ e. Some (type_text e) };

    fn fmt<W: fmt::Write>(&self, f: &mut fmt::Formatter<W>) -> fmt::Result {
        match self {
            TypeRefusal::Unsupported(byte) => write!(
                f,
                "refused 2: type byte {byte} is not handled"
            ),
            TypeRefusal::Invalid(byte) => write!(f, "refused 3: type byte {byte} is no type"),
        }
    }
}

impl Error for TypeRefusal {}

/// Why the state machine does not go on.
#[derive(Clone, Copy, PartialEq, Eq, Debug)]
pub enum AdvanceRefusal {
    /// Another field is expected than came.
    UnexpectedTtlvField {
        expected: FieldType,
        actual: FieldType,
    },
}

impl AdvanceRefusal {
    /// The number under which the refusal is told.
    pub fn number(&self) -> u8
        ensures { result ≡ advance_number self.now }
    {
        match self {
            AdvanceRefusal::UnexpectedTtlvField { .. } => 9,
        }
    }
}

impl fmt::Display for AdvanceRefusal {
    ghost output = { λ e. Some (advance_text e) };

    fn fmt<W: fmt::Write>(&self, f: &mut fmt::Formatter<W>) -> fmt::Result {
        match self {
            AdvanceRefusal::UnexpectedTtlvField { expected, actual } => write!(
                f,
                "refused 9: {actual} came where {expected} was expected"
            ),
        }
    }
}

impl Error for AdvanceRefusal {}

/// Why the state machine does not ignore a tag.
#[derive(Clone, Copy, PartialEq, Eq, Debug)]
pub enum IgnoreRefusal {
    /// It is reading, not writing.
    InvalidStateMachineOperation,
}

impl IgnoreRefusal {
    /// The number under which the refusal is told.
    pub fn number(&self) -> u8
        ensures { result ≡ ignore_number self.now }
    {
        match self {
            IgnoreRefusal::InvalidStateMachineOperation => 10,
        }
    }
}

impl fmt::Display for IgnoreRefusal {
    ghost output = { λ e. Some (ignore_text e) };

    fn fmt<W: fmt::Write>(&self, f: &mut fmt::Formatter<W>) -> fmt::Result {
        match self {
            IgnoreRefusal::InvalidStateMachineOperation => write!(
                f,
                "refused 10: no tag is ignored while reading"
            ),
        }
    }
}

impl Error for IgnoreRefusal {}
