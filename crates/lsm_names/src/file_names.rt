// The names of the files in a store's folder.
ghost use Rattle.std.specs.Prelude.{◌≡◌, ◌≢◌, ◌≤◌, ◌++◌, ◌<◌, length, IfOk, OnErr, IfSome, IsTrue, Some, Ok, ℕ};
ghost use Rattle.lsm_names.specs.declared.file_names.FileName.{FileName};
ghost use Rattle.lsm_names.specs.FileNames.{spelled, IsFileName, six_digits, is_file_number};

use crate::errors::NotAName;
use crate::numbers::{FILE_DIGITS, padded_decimal, read_file_number};
use crate::paths::{PATH_LIMIT, Path};
use crate::text::Text;
use arrayvec::ArrayString;

/// A file in a store's folder, by its kind and its number. A name is spelled where its number is from 1 to
/// `2^56 - 2`.
#[derive(Clone, Copy, Debug, PartialEq, Eq)]
pub enum FileName {
    /// `000001.log`: a write-ahead log.
    Log(u64),
    /// `000001.sst`: a table.
    Table(u64),
    /// `MANIFEST-000001`: the edits from which the version is read.
    Manifest(u64),
    /// `000001.dbtmp`: what is written before it is renamed.
    Temp(u64),
    /// `CURRENT`: the manifest's name.
    Current,
}

impl FileName {
    /// The file that this text names.
    pub fn parse(text: &[u8]) -> Result<FileName, NotAName>
        ensures number { IfOk result IsFileName }
        ensures spelling { IfOk result (λ name. text.now ≡ spelled name) }
        ensures found { (name : FileName) → IsFileName name → text.now ≡ spelled name
            → result ≡ Ok name }
        ensures refused { OnErr result ((name : FileName) → IsFileName name → text.now ≢ spelled name) }
    {
        if text == b"CURRENT".as_slice() {
            return Ok(FileName::Current);
        }
        if let Some(number) = number_between(b"MANIFEST-", text, b"") {
            return Ok(FileName::Manifest(number));
        }
        if let Some(number) = number_between(b"", text, b".log") {
            return Ok(FileName::Log(number));
        }
        if let Some(number) = number_between(b"", text, b".sst") {
            return Ok(FileName::Table(number));
        }
        match number_between(b"", text, b".dbtmp") {
            Some(number) => Ok(FileName::Temp(number)),
            None => Err(NotAName),
        }
    }

    /// The path of the file from its own folder: its name alone.
    pub fn path(&self) -> Path
        requires { IsFileName self.now }
        ensures { result ≡ spelled self.now }
    {
        Path::of_text(self.spelling())
    }

    /// The name's spelling.
    pub fn print(&self) -> ArrayString<PATH_LIMIT>
        requires { IsFileName self.now }
        ensures { result.bytes ≡ spelled self.now }
    {
        self.path().print()
    }

    #[tactic(auto, unfolding(crate::specs::FileNames::spelled))]
    fn spelling(&self) -> Text<PATH_LIMIT>
        requires { IsFileName self.now }
        ensures { result ≡ spelled self.now }
    {
        match *self {
            FileName::Log(number) => around_number(b"", number, b".log"),
            FileName::Table(number) => around_number(b"", number, b".sst"),
            FileName::Manifest(number) => around_number(b"MANIFEST-", number, b""),
            FileName::Temp(number) => around_number(b"", number, b".dbtmp"),
            FileName::Current => Text::from_slice(b"CURRENT"),
        }
    }
}

/// A number's six digits or more, with what stands before and behind them.
fn around_number(before: &[u8], number: u64, behind: &[u8]) -> Text<PATH_LIMIT>
    requires before { length before.now ≤ 9 }
    requires number { IsTrue (is_file_number number) }
    requires behind { length behind.now ≤ 6 }
    ensures { result ≡ before.now ++ six_digits number ++ behind.now }
{
    let mut text = Text::from_slice(before);
    text.push(padded_decimal(FILE_DIGITS, number).as_bytes());
    text.push(behind);
    text
}

/// The file's number that stands between these texts.
fn number_between(before: &[u8], text: &[u8], behind: &[u8]) -> Option<u64>
    ensures number { IfSome result (λ number. IsTrue (is_file_number number)) }
    ensures spelling { IfSome result (λ number. text.now ≡ before.now ++ six_digits number ++ behind.now) }
    ensures found { (number : ℕ) → IsTrue (is_file_number number)
        → text.now ≡ before.now ++ six_digits number ++ behind.now → result ≡ Some number }
{
    read_file_number(text.strip_prefix(before)?.strip_suffix(behind)?)
}
