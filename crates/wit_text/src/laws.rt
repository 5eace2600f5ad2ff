//! What the definitions say of all texts and of small ones. The functions have a contract alone,
//! which is what is proved.
ghost use Rattle.wit_text.specs.Tokens.{AreTheText};
ghost use Rattle.wit_text.specs.examples.TokenExamples.{ExamplesOfFaults, ExamplesOfTokens};

/// The tokens of a text stand one behind another, from behind its byte order mark to its end.
pub fn tokens_are_the_text()
    ensures { AreTheText }
{}

/// The tokens of some texts.
pub fn examples_of_tokens()
    ensures { ExamplesOfTokens }
{}

/// The faults of others.
pub fn examples_of_faults()
    ensures { ExamplesOfFaults }
{}
