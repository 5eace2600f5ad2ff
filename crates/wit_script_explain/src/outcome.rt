//! What a command of a script came to.
ghost use Rattle.std.specs.Prelude.{◌≡◌, None};

use wit_resolve_graph::Reply;

/// What a command of a script came to.
#[derive(Drop)]
pub struct Outcome {
    /// The reply to a change of a graph, or to `merge`; None of other commands.
    pub reply: Option<Reply>,
    /// Why it is refused, or what isn't there, with its lines; else nothing.
    pub text: String,
}

impl Outcome {
    /// This text, of a command that changes no graph.
    pub fn told(text: String) -> Outcome
        ensures reply { result.reply ≡ None }
        ensures text { result.text ≡ text }
    {
        Outcome { reply: None, text }
    }
}
