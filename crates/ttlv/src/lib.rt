#![tactic(auto)]

ghost use Rattle.ttlv.specs.Examples.{WorkedExamples};

// those of whole items hold in a crate above
/// The worked examples of the format hold of its definitions; it does nothing.
pub fn worked_examples_hold()
    ensures { WorkedExamples }
{}
