//! Laws of runs: the contract of each function is what is proved.
ghost use Rattle.wit_json_commands.specs.laws.GoesOn.{RunsGoOn};

/// Commands in two documents, the second of which begins with the state that the first leaves, have the replies of one
/// document of all of them, and leave the same state.
pub fn runs_go_on()
    ensures { RunsGoOn }
{}
