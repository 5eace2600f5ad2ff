//! A law of the definition of what is told: the function has no body, and its contract is what is proved.
ghost use Rattle.wit_script_explain.specs.laws.CommandPlaces.{CommandsHavePlaces};

/// Of a script that is understood each command has its place, at which the line stands that asks it.
pub fn commands_have_places()
    ensures { CommandsHavePlaces }
{}
