//! Laws of the definition of scripts: the functions have no body, and their contracts are what is proved.
ghost use Rattle.wit_script.specs.laws.Outcome.{ScriptsHaveOneOutcome};

/// Of any script exactly one thing can be said: that it is understood, that one line is the first that isn't,
/// or that it is left open after one line.
pub fn scripts_have_one_outcome()
    ensures { ScriptsHaveOneOutcome }
{}
