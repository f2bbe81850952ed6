// Worked examples of sealed frames: the definitions computed with a key.
#![tactic(auto)]

ghost use Rattle.secure_examples.specs.Worked.{Worked};

// The examples hold of the definitions. The body does nothing: the promise is a theorem about them.
pub fn worked()
    ensures { Worked }
{}
