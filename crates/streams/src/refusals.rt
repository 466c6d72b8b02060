ghost use Rattle.std.specs.Prelude.{◌≡◌, Some};
ghost use Rattle.streams.specs.Refusals.{read_number, put_number, place_number, read_text, put_text, place_text};

use std::error::Error;
use std::fmt;

/// Why an exact read is refused.
#[derive(Clone, Copy, PartialEq, Eq, Debug)]
pub enum ReadRefusal {
    /// The source ended first, once `taken` bytes had come.
    Ended { taken: usize },
}

impl ReadRefusal {
    /// The number under which the refusal is told.
    pub fn number(&self) -> u8
        ensures { result ≡ read_number self.now }
    {
        match self {
            ReadRefusal::Ended { .. } => 1,
        }
    }
}

impl fmt::Display for ReadRefusal {
    ghost output = { λ e. Some (read_text e) };

    fn fmt<W: fmt::Write>(&self, f: &mut fmt::Formatter<W>) -> fmt::Result {
        match self {
            ReadRefusal::Ended { taken } => write!(
                f,
                "refused 1: the source ended after {taken} bytes"
            ),
        }
    }
}

impl Error for ReadRefusal {}

/// Why a put is refused.
#[derive(Clone, Copy, PartialEq, Eq, Debug)]
pub enum PutRefusal {
    /// The bytes exceed the room.
    NoRoom,
}

impl PutRefusal {
    /// The number under which the refusal is told.
    pub fn number(&self) -> u8
        ensures { result ≡ put_number self.now }
    {
        match self {
            PutRefusal::NoRoom => 8,
        }
    }
}

impl fmt::Display for PutRefusal {
    ghost output = { λ e. Some (put_text e) };

    fn fmt<W: fmt::Write>(&self, f: &mut fmt::Formatter<W>) -> fmt::Result {
        match self {
            PutRefusal::NoRoom => write!(f, "refused 8: no room for the bytes"),
        }
    }
}

impl Error for PutRefusal {}

/// Why a patch or a look is refused.
#[derive(Clone, Copy, PartialEq, Eq, Debug)]
pub enum PlaceRefusal {
    /// The sink does not hold the place.
    OutOfRange,
}

impl PlaceRefusal {
    /// The number under which the refusal is told.
    pub fn number(&self) -> u8
        ensures { result ≡ place_number self.now }
    {
        match self {
            PlaceRefusal::OutOfRange => 23,
        }
    }
}

impl fmt::Display for PlaceRefusal {
    ghost output = { λ e. Some (place_text e) };

    fn fmt<W: fmt::Write>(&self, f: &mut fmt::Formatter<W>) -> fmt::Result {
        match self {
            PlaceRefusal::OutOfRange => write!(f, "refused 23: the sink has no such place"),
        }
    }
}

impl Error for PlaceRefusal {}
