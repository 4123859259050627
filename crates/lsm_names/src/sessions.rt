// The name of one opening of a store, which tells its tables from those of all others.
ghost use Rattle.std.specs.Prelude.{◌≡◌, ◌≤◌, ◌↔◌, ℕ, List, true, length, IsTrue, IsSome, IfSome, Some};
ghost use Rattle.std.specs.List.{list_all};
ghost use Rattle.lsm_names.specs.Sessions.{is_session_byte, is_session};

use crate::text::Text;
use std::fmt;
use std::marker::Model;

/// The bytes that a session has.
pub const SESSION_LENGTH: usize = 20;

/// A session's name: twenty characters of `0-9A-Z`. A contract sees it as its bytes.
#[derive(Clone, Copy, PartialEq, Eq, PartialOrd, Ord, Hash)]
pub struct Session {
    text: Text<SESSION_LENGTH>,
}

impl Model for Session {
    ghost use Rattle.std.specs.Prelude.{◌≡◌, ℕ, List, true};
    ghost use Rattle.lsm_names.specs.Sessions.{is_session};

    ghost Value = { List ℕ };

    ghost view = { λ s. s.text };

    ghost invariant = { λ s. is_session s.text ≡ true };

    ghost inverse = { λ bytes. record { text = bytes } };
}

impl Session {
    /// The session of this name.
    pub fn new(bytes: [u8; SESSION_LENGTH]) -> Option<Session>
        ensures ok { IfSome result (λ session. session ≡ bytes) }
        ensures exactly { IsSome result ↔ IsTrue (is_session bytes) }
    {
        Session::of_bytes(&bytes)
    }

    /// The session that these bytes name.
    pub(crate) fn of_bytes(bytes: &[u8]) -> Option<Session>
        ensures ok { IfSome result (λ session. session ≡ bytes.now) }
        ensures exactly { IsSome result ↔ IsTrue (is_session bytes.now) }
    {
        if is_session(bytes) {
            Some(Session {
                text: Text::from_slice(bytes),
            })
        } else {
            None
        }
    }

    /// The session's name.
    pub fn as_bytes(&self) -> &[u8]
        ensures bytes { result.now ≡ self.now }
        ensures session { IsTrue (is_session self.now) }
        ensures within { length self.now ≤ SESSION_LENGTH }
    {
        self.text.as_bytes()
    }

    /// The session's name, as text.
    pub fn as_str(&self) -> &str
        ensures { result.now ≡ self.now }
    {
        self.text.as_str()
    }
}

impl fmt::Debug for Session {
    fn fmt<W: fmt::Write>(&self, f: &mut fmt::Formatter<W>) -> fmt::Result {
        fmt::Debug::fmt(&self.as_str(), f)
    }
}

impl fmt::Display for Session {
    ghost output = { λ session. Some session };

    fn fmt<W: fmt::Write>(&self, f: &mut fmt::Formatter<W>) -> fmt::Result {
        f.pad(self.as_str())
    }
}

#[tactic(auto, unfolding(crate::specs::Sessions::is_session_byte))]
fn is_session_byte(byte: u8) -> bool
    ensures { result ≡ is_session_byte byte }
{
    byte.is_ascii_digit() || byte.is_ascii_uppercase()
}

fn has_session_bytes(bytes: &[u8]) -> bool
    ensures { result ≡ list_all is_session_byte bytes.now }
{
    bytes.iter().all(|byte| is_session_byte(*byte))
}

#[tactic(auto, unfolding(crate::specs::Sessions::is_session))]
fn is_session(bytes: &[u8]) -> bool
    ensures { result ≡ is_session bytes.now }
{
    bytes.len() == SESSION_LENGTH && has_session_bytes(bytes)
}
