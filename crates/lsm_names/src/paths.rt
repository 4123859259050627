// Paths on a disk: components with a slash between each two, from the disk's root, which has no name.
ghost use Rattle.std.specs.Prelude.{◌≡◌, ◌+◌, ◌<◌, ◌≤◌, ◌↔◌, ℕ, List, [], ◌∷◌, ◌++◌, true, length, IsTrue, IsOk, IfOk, Some};
ghost use Rattle.std.specs.List.{list_all};
ghost use Rattle.lsm_names.specs.Paths.{is_component_byte, is_dots, is_component, components, is_path, parent_of};

use crate::errors::{NotAName, TooLong};
use crate::text::Text;
use arrayvec::ArrayString;
use std::fmt;
use std::marker::Model;

/// The most bytes that a path has.
pub const PATH_LIMIT: usize = 160;

/// The most bytes that a component has.
const COMPONENT_LIMIT: usize = 100;

/// A path: at most 160 bytes, components with a slash between each two. A component has 1 to 100 letters, digits, `.`,
/// `_` and `-` of ASCII, and isn't `.` or `..`. Paths are ordered as their bytes are. A contract sees a path as its
/// bytes.
#[derive(Clone, Copy, PartialEq, Eq, PartialOrd, Ord, Hash)]
pub struct Path {
    text: Text<PATH_LIMIT>,
}

impl Model for Path {
    ghost use Rattle.std.specs.Prelude.{◌≡◌, ℕ, List, true};
    ghost use Rattle.lsm_names.specs.Paths.{is_path};

    ghost Value = { List ℕ };

    ghost view = { λ p. p.text };

    ghost invariant = { λ p. is_path p.text ≡ true };

    ghost inverse = { λ bytes. record { text = bytes } };
}

impl Path {
    /// The path that this text spells; each path has one spelling.
    pub fn parse(text: &[u8]) -> Result<Path, NotAName>
        ensures ok { IfOk result (λ path. path ≡ text.now) }
        ensures exactly { IsOk result ↔ IsTrue (is_path text.now) }
    {
        if Path::is_path(text) {
            Ok(Path {
                text: Text::from_slice(text),
            })
        } else {
            Err(NotAName)
        }
    }

    /// Whether the bytes spell a path.
    #[tactic(auto, unfolding(crate::specs::Paths::is_path))]
    pub fn is_path(bytes: &[u8]) -> bool
        ensures { result ≡ is_path bytes.now }
    {
        bytes.len() <= PATH_LIMIT && has_components(bytes)
    }

    /// The path that the text is.
    pub(crate) fn of_text(text: Text<PATH_LIMIT>) -> Path
        requires { IsTrue (is_path text) }
        ensures { result ≡ text }
    {
        Path { text }
    }

    /// What stands at `part` in the folder at `front`.
    pub(crate) fn joined(front: &[u8], part: &[u8]) -> Path
        requires front { IsTrue (is_path front.now) }
        requires part { IsTrue (is_path part.now) }
        requires fits { length front.now + 1 + length part.now ≤ PATH_LIMIT }
        ensures { result ≡ front.now ++ 47 ∷ part.now }
    {
        let mut text = Text::from_slice(front);
        text.push(b"/");
        text.push(part);
        Path::of_text(text)
    }

    /// The path of what stands at `part` in this folder, which is refused where it has more than 160 bytes.
    pub fn join(&self, part: &Path) -> Result<Path, TooLong>
        ensures ok { IfOk result (λ path. path ≡ self.now ++ 47 ∷ part.now) }
        ensures exactly { IsOk result ↔ (length self.now + 1 + length part.now ≤ PATH_LIMIT) }
    {
        let front = self.as_bytes();
        let part = part.as_bytes();
        if front.len() + 1 + part.len() <= PATH_LIMIT {
            Ok(Path::joined(front, part))
        } else {
            Err(TooLong)
        }
    }

    /// The path's spelling.
    pub fn as_bytes(&self) -> &[u8]
        ensures bytes { result.now ≡ self.now }
        ensures path { IsTrue (is_path self.now) }
        ensures within { length self.now ≤ PATH_LIMIT }
    {
        self.text.as_bytes()
    }

    /// The path's spelling, as text.
    pub fn as_str(&self) -> &str
        ensures text { result.now ≡ self.now }
        ensures within { length self.now ≤ PATH_LIMIT }
    {
        self.text.as_str()
    }

    /// The path's spelling, kept apart from the path.
    pub fn print(&self) -> ArrayString<PATH_LIMIT>
        ensures { result.bytes ≡ self.now }
    {
        let mut printed = ArrayString::new();
        printed.push_str(self.as_str());
        printed
    }

    /// The folder that the path stands in; the root is the empty text.
    pub fn parent(&self) -> &[u8]
        ensures { result.now ≡ parent_of self.now }
    {
        let path = self.as_bytes();
        let mut end = path.len();
        while end > 0 {
            end -= 1;
            if path[end] == b'/' {
                return &path[..end];
            }
        }
        &[]
    }
}

impl fmt::Debug for Path {
    fn fmt<W: fmt::Write>(&self, f: &mut fmt::Formatter<W>) -> fmt::Result {
        fmt::Debug::fmt(&self.as_str(), f)
    }
}

impl fmt::Display for Path {
    ghost output = { λ path. Some path };

    fn fmt<W: fmt::Write>(&self, f: &mut fmt::Formatter<W>) -> fmt::Result {
        f.pad(self.as_str())
    }
}

#[tactic(auto, unfolding(crate::specs::Paths::is_component_byte))]
fn is_component_byte(byte: u8) -> bool
    ensures { result ≡ is_component_byte byte }
{
    byte.is_ascii_alphanumeric() || byte == b'.' || byte == b'_' || byte == b'-'
}

fn has_component_bytes(part: &[u8]) -> bool
    ensures { result ≡ list_all is_component_byte part.now }
{
    part.iter().all(|byte| is_component_byte(*byte))
}

#[tactic(auto, unfolding(crate::specs::Paths::is_dots))]
fn is_dots(part: &[u8]) -> bool
    ensures { result ≡ is_dots part.now }
{
    part == b".".as_slice() || part == b"..".as_slice()
}

#[tactic(auto, unfolding(crate::specs::Paths::is_component))]
fn is_component(part: &[u8]) -> bool
    ensures { result ≡ is_component part.now }
{
    if part.is_empty() || part.len() > COMPONENT_LIMIT {
        return false;
    }
    has_component_bytes(part) && !is_dots(part)
}

fn has_components(bytes: &[u8]) -> bool
    ensures { result ≡ list_all is_component (components bytes.now) }
{
    bytes.split(|byte| *byte == b'/').all(is_component)
}
