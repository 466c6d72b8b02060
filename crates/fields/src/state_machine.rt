ghost use Rattle.std.specs.Prelude.{◌≡◌};
ghost use Rattle.fields.specs.Machine.{advanced, ignoring, fresh};

use crate::field_type::FieldType;
use crate::refusals::{AdvanceRefusal, IgnoreRefusal};

/// Which way fields go.
#[derive(Clone, Copy, PartialEq, Eq, Debug)]
pub enum TtlvStateMachineMode {
    Deserializing,
    Serializing,
}

/// Holds the fields of items to their order.
#[derive(Clone, Copy, Debug)]
pub struct TtlvStateMachine {
    mode: TtlvStateMachineMode,
    expected_next_field_type: FieldType,
    // a rule of the machine: its table asks the flag beside mode and field
    ignore_next_tag: bool,
}

impl TtlvStateMachine {
    /// A machine that expects a tag.
    pub fn new(mode: TtlvStateMachineMode) -> TtlvStateMachine
        ensures { result ≡ fresh mode }
    {
        TtlvStateMachine {
            mode,
            expected_next_field_type: FieldType::Tag,
            ignore_next_tag: false,
        }
    }

    // true and false are a rule of the machine too
    /// Takes the next field. False says that the field is not to be written, since it is ignored.
    pub fn advance(&mut self, next_field_type: FieldType) -> Result<bool, AdvanceRefusal>
        ensures answer { result ≡ (advanced self.old next_field_type).0 }
        ensures state { self.new ≡ (advanced self.old next_field_type).1 }
    {
        use TtlvStateMachineMode as Mode;
        let next = match (self.mode, self.expected_next_field_type, next_field_type) {
            (_, FieldType::Tag, FieldType::Tag) => FieldType::Type,
            (_, FieldType::Type, FieldType::Type) => FieldType::Length,
            (Mode::Serializing, FieldType::Type, FieldType::TypeAndLengthAndValue) =>
                FieldType::Tag,
            (_, FieldType::Length, FieldType::Length) => FieldType::Value,
            (Mode::Deserializing, FieldType::Length, FieldType::LengthAndValue) => FieldType::Tag,
            (_, FieldType::Value, FieldType::Value) => FieldType::Tag,
            // the first item of a structure comes in the place of its value
            (_, FieldType::Value, FieldType::Tag) => FieldType::Type,
            // a tag was written by itself, and the item's own is left out
            (Mode::Serializing, FieldType::Type, FieldType::Tag) if self.ignore_next_tag => {
                self.ignore_next_tag = false;
                FieldType::Type
            }
            (_, expected, actual) => {
                return Err(AdvanceRefusal::UnexpectedTtlvField { expected, actual });
            }
        };
        if self.mode == Mode::Deserializing || next != self.expected_next_field_type {
            self.expected_next_field_type = next;
            Ok(true)
        } else {
            Ok(false)
        }
    }

    /// Has the next tag left out, where a tag was just written.
    pub fn ignore_next_tag(&mut self) -> Result<(), IgnoreRefusal>
        ensures answer { result ≡ (ignoring self.old).0 }
        ensures state { self.new ≡ (ignoring self.old).1 }
    {
        match self.mode {
            TtlvStateMachineMode::Deserializing => Err(IgnoreRefusal::InvalidStateMachineOperation),
            TtlvStateMachineMode::Serializing => {
                self.ignore_next_tag = true;
                Ok(())
            }
        }
    }

    /// Expects a tag again.
    pub fn reset(&mut self)
        ensures { self.new ≡ fresh self.old.mode }
    {
        self.expected_next_field_type = FieldType::Tag;
        self.ignore_next_tag = false;
    }
}
