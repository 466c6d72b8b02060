#![tactic(auto)]

ghost use Rattle.worked.specs.Examples.{WorkedExamples};

// some of those that need no code hold in crate `ttlv` too, so that a wrong definition is refused there
/// The worked examples of the format hold of its definitions; it does nothing.
pub fn worked_examples_hold()
    ensures { WorkedExamples }
{}
