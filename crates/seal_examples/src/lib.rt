// Worked examples of AES and GCM: the definitions computed on published cases.
#![tactic(auto)]

ghost use Rattle.seal_examples.specs.Examples.{Worked};

// The examples hold of the definitions. The body does nothing: the promise is a theorem about them.
pub fn worked()
    ensures { Worked }
{}
