ghost use Rattle.std.specs.Prelude.{◌≡◌};
ghost use Rattle.faults.specs.Faults.{item_number, layer_of};
ghost use Rattle.faults.specs.Pinned.{pinned};

use crate::error_location::ErrorLocation;
use crate::item_fault::ItemFault;
use crate::layer::Layer;
use std::error::Error;
use std::fmt;

/// Why and where an item is not read.
#[derive(Clone, Copy, PartialEq, Eq, Debug)]
pub struct Fault {
    /// The cause, with the bytes or fields concerned.
    pub cause: ItemFault,
    /// The item's first byte, and its tag and type if they were read.
    pub location: ErrorLocation,
}

impl Fault {
    /// The number under which the fault is told.
    pub fn number(&self) -> u8
        ensures { result ≡ item_number self.now.cause }
    {
        self.cause.number()
    }

    /// The layer that the fault comes from.
    pub fn layer(&self) -> Layer
        ensures { result ≡ layer_of (item_number self.now.cause) }
    {
        self.cause.layer()
    }
}

impl fmt::Display for Fault {
    fn fmt<W: fmt::Write>(&self, f: &mut fmt::Formatter<W>) -> fmt::Result {
        let cause = &self.cause;
        let location = &self.location;
        write!(f, "{cause} ({location})")
    }
}

impl Error for Fault {}

/// Adds the place to the cause of a fault.
pub fn pinpoint<T>(read: Result<T, ItemFault>, location: ErrorLocation) -> Result<T, Fault>
    ensures { result ≡ pinned read location }
{
    read.map_err(|cause| Fault { cause, location })
}
