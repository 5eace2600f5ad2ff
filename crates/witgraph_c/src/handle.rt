//! A graph that stays, as C holds it.
ghost use Rattle.std.specs.Prelude.{◌≡◌, MatchOption, None, Option, Some};
ghost use Rattle.std.specs.Coded.{coded_option};
ghost use Rattle.witgraph_calls.specs.contracts.session.Session.{the_row as session_row};
ghost use Rattle.witgraph_calls.specs.declared.session.Session.{Session as Kept};

use crate::loose::Loose;
use std::alloc::Global;
use std::marker::Model;
use std::mem;
use std::ptr::null_mut;
use witgraph_calls::Session;

/// The graph that is open here, or none. C has it as a struct with one pointer, which is null where none is open; it is
/// moved nowhere else while one is.
#[repr(C)]
pub struct Handle {
    at: *mut u8,
    alloc: Global,
    pub ghost session: { Option Kept } by { coded_option session_row.coded },
}

impl Model for Handle {
    ghost use Rattle.witgraph_c.specs.steps.Owned.{handle_owns};
    ghost use Rattle.witgraph_calls.specs.contracts.session.Session.{the_row as session_row};

    ghost also_owns = { λ h. handle_owns session_row h.alloc h.at h.session };
}

impl Handle {
    /// No graph is open.
    pub fn closed(alloc: Global) -> Handle
        ensures { result.session ≡ None }
    {
        Handle {
            at: null_mut(),
            alloc,
        }
    }

    /// The graph of a box is open.
    fn holding(loose: Loose<Session, Global>) -> Handle
        ensures { result.session ≡ Some loose.value }
    {
        let Loose { at, alloc } = loose;
        Handle {
            at: at as *mut u8,
            alloc,
        }
    }

    /// The box of the graph that is open.
    fn into_loose(self) -> Option<Loose<Session, Global>>
        ensures { MatchOption result (self.session ≡ None)
            (λ loose. self.session ≡ Some loose.value) }
    {
        let Handle { at, alloc } = self;
        if at.is_null() {
            None
        } else {
            Some(Loose {
                at: at as *mut Session,
                alloc,
            })
        }
    }

    /// Takes the graph out, so that none is open.
    pub fn take(&mut self, alloc: Global) -> Option<Box<Session>>
        ensures taken { MatchOption result (self.old.session ≡ None)
            (λ session. self.old.session ≡ Some session.value) }
        ensures closed { self.new.session ≡ None }
    {
        match mem::replace(self, Handle::closed(alloc)).into_loose() {
            Some(loose) => Some(loose.into_box()),
            None => None,
        }
    }

    /// Puts a graph there, so that it is open. One that was open is let go.
    pub fn put(&mut self, session: Box<Session>)
        ensures { self.new.session ≡ Some session.value }
    {
        *self = Handle::holding(Loose::of(session));
    }
}

impl Drop for Handle {
    fn drop(self) {
        if let Some(loose) = self.into_loose() {
            drop(loose.into_box());
        }
    }
}
