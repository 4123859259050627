// The names of folders in a disk's root.
ghost use Rattle.std.specs.Prelude.{◌≤◌, length, ◌≡◌, ℕ, List, [], true, IsTrue, IsOk, IfOk, ◌↔◌, ◌++◌, ◌∷◌, Some};
ghost use Rattle.std.specs.List.{list_all};
ghost use Rattle.lsm_names.specs.Folders.{is_small_letter_or_digit, is_folder_byte, is_folder_name};
ghost use Rattle.lsm_names.specs.FileNames.{IsFileName, spelled};
ghost use Rattle.lsm_names.specs.Paths.{parent_of};

use crate::errors::NotAName;
use crate::file_names::FileName;
use crate::paths::{PATH_LIMIT, Path};
use crate::text::Text;
use arrayvec::ArrayString;
use std::fmt;
use std::marker::Model;

/// The most bytes that a folder's name has.
pub const FOLDER_LIMIT: usize = 64;

/// A folder's name: 1 to 64 characters of `a-z`, `0-9`, `_` and `-`, the first a letter or a digit. A contract sees it
/// as its bytes.
#[derive(Clone, Copy, PartialEq, Eq, PartialOrd, Ord, Hash)]
pub struct Folder {
    text: Text<FOLDER_LIMIT>,
}

impl Model for Folder {
    ghost use Rattle.std.specs.Prelude.{◌≤◌, length, ◌≡◌, ℕ, List, true};
    ghost use Rattle.lsm_names.specs.Folders.{is_folder_name};

    ghost Value = { List ℕ };

    ghost view = { λ f. f.text };

    ghost invariant = { λ f. is_folder_name f.text ≡ true };

    ghost inverse = { λ bytes. record { text = bytes } };
}

impl Folder {
    /// The folder that this text names.
    pub fn parse(text: &[u8]) -> Result<Folder, NotAName>
        ensures ok { IfOk result (λ folder. folder ≡ text.now) }
        ensures exactly { IsOk result ↔ IsTrue (is_folder_name text.now) }
    {
        if is_folder_name(text) {
            Ok(Folder {
                text: Text::from_slice(text),
            })
        } else {
            Err(NotAName)
        }
    }

    /// The name's spelling.
    pub fn as_bytes(&self) -> &[u8]
        ensures bytes { result.now ≡ self.now }
        ensures folder { IsTrue (is_folder_name self.now) }
        ensures within { length self.now ≤ FOLDER_LIMIT }
    {
        self.text.as_bytes()
    }

    /// The name's spelling, as text.
    pub fn as_str(&self) -> &str
        ensures { result.now ≡ self.now }
    {
        self.text.as_str()
    }

    /// The name's spelling, kept apart from the name.
    pub fn print(&self) -> ArrayString<PATH_LIMIT>
        ensures { result.bytes ≡ self.now }
    {
        self.path().print()
    }

    /// The path of the folder itself, which stands in the root.
    pub fn path(&self) -> Path
        ensures path { result ≡ self.now }
        ensures root { parent_of self.now ≡ [] }
    {
        Path::of_text(Text::from_slice(self.as_bytes()))
    }

    /// The path of a file in this folder.
    pub fn file(&self, name: &FileName) -> Path
        requires { IsFileName name.now }
        ensures { result ≡ self.now ++ 47 ∷ spelled name.now }
    {
        Path::joined(self.as_bytes(), name.path().as_bytes())
    }
}

impl fmt::Debug for Folder {
    fn fmt<W: fmt::Write>(&self, f: &mut fmt::Formatter<W>) -> fmt::Result {
        fmt::Debug::fmt(&self.as_str(), f)
    }
}

impl fmt::Display for Folder {
    ghost output = { λ folder. Some folder };

    fn fmt<W: fmt::Write>(&self, f: &mut fmt::Formatter<W>) -> fmt::Result {
        f.pad(self.as_str())
    }
}

#[tactic(auto, unfolding(crate::specs::Folders::is_small_letter_or_digit))]
fn is_small_letter_or_digit(byte: u8) -> bool
    ensures { result ≡ is_small_letter_or_digit byte }
{
    byte.is_ascii_lowercase() || byte.is_ascii_digit()
}

#[tactic(auto, unfolding(crate::specs::Folders::is_folder_byte))]
fn is_folder_byte(byte: u8) -> bool
    ensures { result ≡ is_folder_byte byte }
{
    is_small_letter_or_digit(byte) || byte == b'_' || byte == b'-'
}

fn has_folder_bytes(bytes: &[u8]) -> bool
    ensures { result ≡ list_all is_folder_byte bytes.now }
{
    bytes.iter().all(|byte| is_folder_byte(*byte))
}

#[tactic(auto, unfolding(crate::specs::Folders::is_folder_name))]
fn is_folder_name(bytes: &[u8]) -> bool
    ensures { result ≡ is_folder_name bytes.now }
{
    if bytes.is_empty() || bytes.len() > FOLDER_LIMIT {
        return false;
    }
    is_small_letter_or_digit(bytes[0]) && has_folder_bytes(bytes)
}
