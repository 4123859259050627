// The names of the tables that backups share.
ghost use Rattle.std.specs.Prelude.{◌≡◌, ◌≢◌, ◌^◌, ◌<◌, ◌++◌, ◌∷◌, ℕ, List, true, codes, not, ◌==◌, IfOk, OnErr, IfSome, IsSomeAnd, IsTrue, Some, Ok};
ghost use Rattle.std.specs.Fmt.{decimal};
ghost use Rattle.std.specs.List.{list_all};
ghost use Rattle.lsm_names.specs.declared.shared_names.SharedName.{SharedName};
ghost use Rattle.lsm_names.specs.Numbers.{six_digits, is_file_number};
ghost use Rattle.lsm_names.specs.Sessions.{is_session};
ghost use Rattle.lsm_names.specs.SharedNames.{spelled_shared, IsSharedName};

use crate::errors::NotAName;
use crate::numbers::{FILE_DIGITS, decimal, is_file_number, padded_decimal, read_decimal};
use crate::paths::{PATH_LIMIT, Path};
use crate::sessions::Session;
use crate::text::Text;
use arrayvec::ArrayString;

/// A table by its number, the session that wrote it and its size in bytes: `<number>_s<session>_<size>.sst`. A name is
/// spelled where its number is from 1 to `2^56 - 2`.
#[derive(Clone, Copy, Debug, PartialEq, Eq)]
pub struct SharedName {
    pub number: u64,
    pub session: Session,
    pub size: u64,
}

impl SharedName {
    /// The table that this text names.
    pub fn parse(text: &[u8]) -> Result<SharedName, NotAName>
        ensures number { IfOk result (λ name. IsTrue (is_file_number name.number)) }
        ensures spelling { IfOk result (λ name. text.now ≡ spelled_shared name) }
        ensures found { (name : SharedName) → IsSharedName name → text.now ≡ spelled_shared name
            → result ≡ Ok name }
        ensures refused { OnErr result ((name : SharedName) → IsSharedName name
            → text.now ≢ spelled_shared name) }
    {
        match read(text) {
            Some(name) => checked(name, text),
            None => Err(NotAName),
        }
    }

    /// The path of the table from its own folder: its name alone.
    pub fn path(&self) -> Path
        requires { IsTrue (is_file_number self.now.number) }
        ensures { result ≡ spelled_shared self.now }
    {
        Path::of_text(self.spelling())
    }

    /// The name's spelling.
    pub fn print(&self) -> ArrayString<PATH_LIMIT>
        requires { IsTrue (is_file_number self.now.number) }
        ensures { result.bytes ≡ spelled_shared self.now }
    {
        self.path().print()
    }

    #[tactic(auto, unfolding(crate::specs::SharedNames::spelled_shared))]
    fn spelling(&self) -> Text<PATH_LIMIT>
        requires { IsTrue (is_file_number self.now.number) }
        ensures spelling { result ≡ spelled_shared self.now }
        ensures named { IsSharedName self.now }
    {
        let mut text = Text::from_slice(padded_decimal(FILE_DIGITS, self.number).as_bytes());
        text.push(b"_s");
        text.push(self.session.as_bytes());
        text.push(b"_");
        text.push(decimal(self.size).as_bytes());
        text.push(b".sst");
        text
    }
}

/// The name, where this text is its spelling.
fn checked(name: SharedName, text: &[u8]) -> Result<SharedName, NotAName>
    ensures ok { IfOk result (λ found. found ≡ name) }
    ensures number { IfOk result (λ found. IsTrue (is_file_number found.number)) }
    ensures spelling { IfOk result (λ found. text.now ≡ spelled_shared found) }
    ensures found { IsTrue (is_file_number name.number) → text.now ≡ spelled_shared name
        → result ≡ Ok name }
{
    if is_file_number(name.number) && name.path().as_bytes() == text {
        Ok(name)
    } else {
        Err(NotAName)
    }
}

/// The only name that the text may spell. Of a text that spells none it may give any name.
fn read(text: &[u8]) -> Option<SharedName>
    ensures { (name : SharedName) → IsSharedName name → text.now ≡ spelled_shared name
        → result ≡ Some name }
{
    let (number, origin) = cut_at_underscore(text)?;
    let number = read_decimal(number)?;
    let (session, size) = read_origin(origin)?;
    Some(SharedName {
        number,
        session,
        size,
    })
}

/// The session and the size that stand behind the number: `s<session>_<size>.sst`.
fn read_origin(text: &[u8]) -> Option<(Session, u64)>
    ensures { (session : List ℕ) (size : ℕ) → IsTrue (is_session session) → size < 2 ^ 64
        → text.now ≡ codes "s" ++ (session ++ (codes "_" ++ (decimal size ++ codes ".sst")))
        → result ≡ Some (record { 0 = session; 1 = size }) }
{
    let (session, size) = cut_at_underscore(text.strip_prefix(b"s")?)?;
    let session = Session::of_bytes(session)?;
    let size = read_decimal(size.strip_suffix(b".sst")?)?;
    Some((session, size))
}

/// What stands before and behind the first `_`, whose byte is 95.
fn cut_at_underscore(text: &[u8]) -> Option<(&[u8], &[u8])>
    ensures { (front back : List ℕ) → list_all (λ byte. not (byte == 95)) front ≡ true
        → text.now ≡ front ++ (codes "_" ++ back)
        → IsSomeAnd result (λ parts. (parts.0.now ≡ front) × (parts.1.now ≡ back)) }
{
    let at = text.iter().position(|byte| *byte == b'_')?;
    Some((&text[..at], &text[at + 1..]))
}
