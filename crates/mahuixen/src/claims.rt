// What else holds of calls by C: of tries to switch, of streams with a switch in them, and of sealed builds. Each follows from what is promised of the calls that they are.
ghost use Rattle.mahuixen.specs.Switches.{AbiEverySwitch, AbiAddUp};
ghost use Rattle.mahuixen.specs.Nonces.{AbiNoNonceTwice};
ghost use Rattle.mahuixen.specs.Sealed.{AbiSealedDemand2};

// DEMAND 1 of tries to switch: 26 and 27 exactly when, and then nothing changes.
pub fn every_switch()
    ensures { AbiEverySwitch }
{
    connection::every_call();
}

// BYTES ADD UP, with a switch among the calls.
pub fn bytes_add_up()
    ensures { AbiAddUp }
{
    sealed_ends::bytes_add_up();
}

// NO NONCE TWICE, of sealed builds from a switch on.
pub fn no_nonce_twice()
    ensures { AbiNoNonceTwice }
{
    sealed_builder::no_nonce_twice();
}

// DEMAND 2 of sealed frames, with the switch on both sides.
pub fn both_sealed_ends()
    ensures { AbiSealedDemand2 }
{
    sealed_ends::handed_over();
    sealed_ends::round_trip();
    sealed_ends::two_ends();
}
