ghost use Rattle.std.specs.Prelude.{◌≡◌, Some};
ghost use Rattle.faults.specs.Faults.{layer_name};

use std::fmt;

/// The layer that a fault comes from.
#[derive(Clone, Copy, PartialEq, Eq, Debug)]
pub enum Layer {
    /// The source of the bytes.
    Source,
    /// A value.
    Value,
    /// An item: its header, and the order of its fields.
    Item,
}

impl fmt::Display for Layer {
    ghost output = { λ l. Some (layer_name l) };

    fn fmt<W: fmt::Write>(&self, f: &mut fmt::Formatter<W>) -> fmt::Result {
        match self {
            Layer::Source => f.write_str("source"),
            Layer::Value => f.write_str("value"),
            Layer::Item => f.write_str("item"),
        }
    }
}
