ghost use Rattle.std.specs.Prelude.{◌≡◌, Some};
ghost use Rattle.values.specs.Refusals.{write_number, value_number, write_text, value_text};
ghost use Rattle.values.specs.declared.refusals.WriteRefusal.TheVariants.{NoRoom};

use fields::ttlv_type::TtlvType;
use std::error::Error;
use std::fmt;
use streams::refusals::PutRefusal;

/// Why a value is not written.
#[derive(Clone, Copy, PartialEq, Eq, Debug)]
pub enum WriteRefusal {
    /// Length, bytes and padding exceed the longest message.
    TooLong,
    /// They exceed the sink's room.
    NoRoom,
}

impl WriteRefusal {
    /// The number under which the refusal is told.
    pub fn number(&self) -> u8
        ensures { result ≡ write_number self.now }
    {
        match self {
            WriteRefusal::TooLong => 15,
            WriteRefusal::NoRoom => 8,
        }
    }
}

impl From<PutRefusal> for WriteRefusal {
    ghost from_gives = { λ _ r. r ≡ NoRoom };

    fn from(refusal: PutRefusal) -> WriteRefusal {
        match refusal {
            PutRefusal::NoRoom => WriteRefusal::NoRoom,
        }
    }
}

impl fmt::Display for WriteRefusal {
    ghost output = { λ e. Some (write_text e) };

    fn fmt<W: fmt::Write>(&self, f: &mut fmt::Formatter<W>) -> fmt::Result {
        match self {
            WriteRefusal::TooLong => f.write_str("refused 15: longer than a message may be"),
            WriteRefusal::NoRoom => f.write_str("refused 8: no room for the value"),
        }
    }
}

impl Error for WriteRefusal {}

/// Why bytes are not a value of a kind.
#[derive(Clone, Copy, PartialEq, Eq, Debug)]
pub enum ValueRefusal {
    /// A kind of fixed length has another length.
    InvalidTtlvValueLength {
        expected: u32,
        actual: usize,
        kind: TtlvType,
    },
    /// A Boolean above 1, or bytes that are not text.
    InvalidTtlvValue {
        kind: TtlvType,
    },
}

impl ValueRefusal {
    /// The number under which the refusal is told.
    pub fn number(&self) -> u8
        ensures { result ≡ value_number self.now }
    {
        match self {
            ValueRefusal::InvalidTtlvValueLength { .. } => 4,
            ValueRefusal::InvalidTtlvValue { .. } => 5,
        }
    }
}

impl fmt::Display for ValueRefusal {
    ghost output = { λ e. Some (value_text e) };

    fn fmt<W: fmt::Write>(&self, f: &mut fmt::Formatter<W>) -> fmt::Result {
        match self {
            ValueRefusal::InvalidTtlvValueLength {
                expected,
                actual,
                kind,
            } => write!(
                f,
                "refused 4: {kind} has {expected} bytes, and not {actual}"
            ),
            ValueRefusal::InvalidTtlvValue { kind } => write!(
                f,
                "refused 5: the bytes are no {kind}"
            ),
        }
    }
}

impl Error for ValueRefusal {}
