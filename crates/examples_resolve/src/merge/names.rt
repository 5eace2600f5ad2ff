//! Which names a graph has, which keys its worlds have, and which of its interfaces are placed.
ghost use Rattle.examples_resolve.specs.merge.NamesHeld.{ExamplesOfKeys, ExamplesOfNames, ExamplesOfPlaces};

/// Names of each kind, and names that aren't there.
pub fn examples_of_names()
    ensures { ExamplesOfNames }
{}

/// A label and the key of an interface of one text.
pub fn examples_of_keys()
    ensures { ExamplesOfKeys }
{}

/// Interfaces with and without a name, and one that stands nowhere.
pub fn examples_of_places()
    ensures { ExamplesOfPlaces }
{}
