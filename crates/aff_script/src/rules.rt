//! What may stand behind the sessions that were read.
ghost use Rattle.std.specs.Prelude.{◌≡◌, ◌+◌, ◌<◌, ◌↔◌, false, IsTrue, List};
ghost use Rattle.std.specs.List.{list_any};
ghost use Rattle.aff_script.specs.Refused.{EndsWith, IsFull, IsPastEnd, IsTooLong, MayStand, is_after};
ghost use Rattle.aff_script.specs.declared.script.Request.{Request};

use crate::line::{Form, Said};
use crate::script::{Request, Session};
use aff_model::{MAX_READ, MAX_REQUESTS, MAX_SESSIONS};

fn is_after(request: &Request) -> bool
    ensures { result ≡ is_after request.now }
{
    match request {
        Request::Read { .. } => false,
        Request::Raise { .. } => false,
        Request::Await(_) => false,
        Request::After => true,
    }
}

fn has_after(session: &Session) -> bool
    ensures { result ≡ list_any is_after session.now }
{
    session.requests.iter().any(|request| is_after(request))
}

// Whether a session has begun and has no `after` yet.
fn is_open(sessions: &[Session]) -> bool
    ensures { IsTrue result ↔ ((requests : List Request) × EndsWith sessions.now requests × (list_any is_after requests ≡ false)) }
{
    match sessions.last() {
        Some(session) => !has_after(session),
        None => false,
    }
}

/// Whether a line of the form may stand there.
pub fn may_stand(sessions: &[Session], form: Form) -> bool
    ensures { IsTrue result ↔ MayStand sessions.now form }
{
    match form {
        Form::Session => true,
        Form::Read => !sessions.is_empty(),
        Form::Raise => is_open(sessions),
        Form::Await => is_open(sessions),
        Form::After => is_open(sessions),
    }
}

/// Whether there is no room for what a line says.
pub fn is_full(sessions: &[Session], said: &Said) -> bool
    ensures { IsTrue result ↔ IsFull sessions.now said.now }
{
    match said {
        Said::Begin => sessions.len() >= MAX_SESSIONS,
        Said::Ask(_) => match sessions.last() {
            Some(session) => session.requests.len() >= MAX_REQUESTS,
            None => false,
        },
    }
}

/// Whether it is a read of more bytes than there may be.
pub fn is_too_long(said: &Said) -> bool
    ensures { IsTrue result ↔ IsTooLong said.now }
{
    match said {
        Said::Begin => false,
        Said::Ask(Request::Read { len, .. }) => *len > MAX_READ,
        Said::Ask(Request::Raise { .. }) => false,
        Said::Ask(Request::Await(_)) => false,
        Said::Ask(Request::After) => false,
    }
}

/// Whether it is about bytes behind the device's end.
pub fn is_past_end(size: u64, said: &Said) -> bool
    ensures { IsTrue result ↔ IsPastEnd size said.now }
{
    match said {
        Said::Begin => false,
        Said::Ask(Request::Read { at, len }) => ends_behind(*at, *len, size),
        Said::Ask(Request::Raise { at, len }) => ends_behind(*at, *len, size),
        Said::Ask(Request::Await(_)) => false,
        Said::Ask(Request::After) => false,
    }
}

fn ends_behind(at: u64, len: u64, size: u64) -> bool
    ensures { IsTrue result ↔ (size < at + len) }
{
    at > size || len > size - at
}
