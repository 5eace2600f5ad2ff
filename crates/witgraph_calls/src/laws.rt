//! Laws of a graph that stays: the contract of each function is what is proved.
ghost use Rattle.witgraph_calls.specs.laws.GoesOn.{DocumentsGoOn};
ghost use Rattle.witgraph_calls.specs.laws.ToldStands.{AllStands, NewsComplete, NothingStands, ToldStands};

use wit_json_commands::laws::runs_go_on;

/// Two documents that are applied to a graph one after another, of which the second has no graph of its own, do what one
/// document of all commands does.
pub fn documents_go_on()
    ensures { DocumentsGoOn }
{
    runs_go_on();
}

/// What `write_new` told stands as long as the session says so, whatever documents come between.
pub fn what_was_told_stands()
    ensures all { AllStands }
    ensures nothing { NothingStands }
    ensures after { ToldStands }
{}

/// What was told and still stands makes, with what is new, each list of the graph.
pub fn news_complete_what_was_told()
    ensures { NewsComplete }
{}
