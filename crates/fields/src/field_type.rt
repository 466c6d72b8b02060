ghost use Rattle.std.specs.Prelude.{◌≡◌, Some};
ghost use Rattle.fields.specs.Types.{field_name};

use std::fmt;

/// The type of a field of an item, or of fields that are handled as one.
#[derive(Clone, Copy, PartialEq, Eq, Debug)]
pub enum FieldType {
    Tag,
    Type,
    Length,
    Value,
    /// Length and value together, when reading.
    LengthAndValue,
    /// Type, length and value together, when writing.
    TypeAndLengthAndValue,
}

impl FieldType {
    /// The field's name.
    pub fn name(&self) -> &'static str
        ensures { result.now ≡ field_name self.now }
    {
        match self {
            FieldType::Tag => "Tag",
            FieldType::Type => "Type",
            FieldType::Length => "Length",
            FieldType::Value => "Value",
            FieldType::LengthAndValue => "LengthAndValue",
            FieldType::TypeAndLengthAndValue => "TypeAndLengthAndValue",
        }
    }
}

// as a type is shown; the library's trait takes no impl for all that have a name
impl fmt::Display for FieldType {
    ghost output = { λ f. Some (field_name f) };

    fn fmt<W: fmt::Write>(&self, f: &mut fmt::Formatter<W>) -> fmt::Result {
        f.write_str(self.name())
    }
}
