//! What a script asks, and that it may be asked.
ghost use Rattle.std.specs.Prelude.{◌≡◌};
ghost use Rattle.wit_script.specs.Ready.{other_after};

use std::marker::Model;
use wit_script_lines::Request;

/// Whether an `other` waits for its `merge` after a command, where one waited before or none did. None where the command
/// can't be asked then: `other` once more, or `merge` without it.
pub fn other_after(request: &Request, other: bool) -> Option<bool>
    ensures { result ≡ other_after request.now other }
{
    match request {
        Request::Other => (!other).then_some(true),
        Request::Merge => other.then_some(false),
        _ => Some(other),
    }
}

/// A command whose packages have the shape that a graph takes.
#[derive(Drop)]
pub struct ReadyCommand {
    request: Request,
}

impl Model for ReadyCommand {
    ghost use Rattle.wit_script.specs.Ready.{IsReady};
    ghost use Rattle.wit_script_lines.specs.declared.request.Request.{Request};

    ghost Value = { Request };

    ghost view = { λ ready. ready.request };

    ghost invariant = { λ ready. IsReady ready.request };
}

impl ReadyCommand {
    ghost use Rattle.wit_script.specs.Ready.{IsReady};

    /// A command whose packages have their shape, as `is_group_shaped` tells.
    pub fn new(request: Request) -> ReadyCommand
        requires { IsReady request }
        ensures { result ≡ request }
    {
        ReadyCommand { request }
    }

    /// What it asks, whose packages have their shape.
    pub fn into_request(self) -> Request
        ensures same { result ≡ self }
        ensures ready { IsReady result }
    {
        self.request
    }
}
