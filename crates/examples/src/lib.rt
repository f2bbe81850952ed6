// Worked examples: the definitions computed on published cases and recorded frames.
#![tactic(auto)]

ghost use Rattle.examples.specs.Examples.{Worked};

// The examples hold of the definitions. The body does nothing: the promise is a theorem about them.
pub fn worked()
    ensures { Worked }
{}
