//! What words ask for, as the caller gets it.
ghost use Rattle.std.specs.Prelude.{◌≡◌, ◌↔◌, Some, None, Err, IfOk};
ghost use Rattle.ldb_words.specs.Words.{asked_by};
ghost use Rattle.ldb_words.specs.Parts.{SplitsInto};
ghost use Rattle.ldb_words.specs.Reading.{texts, asked_in};

use crate::command::command_in;
use crate::given::read_given;
use crate::options::options_len;
use clap::error::ErrorKind;
use lsm_names::Folder;
use std::alloc::Global;

/// What the words of a command line ask for.
#[derive(Drop)]
pub struct Asked<'a> {
    /// The path of the folder in which the store's disk is kept.
    pub disk: &'a str,
    /// The path of the folder in which the backups' disk is kept.
    pub backups: &'a str,
    /// The folder of the store, on its disk.
    pub db: Folder,
    /// The words of the command.
    pub command: &'a [String],
}

/// Why words ask for nothing.
#[derive(Clone, Copy, Debug, PartialEq, Eq)]
pub enum WordsError {
    /// They aren't options and a command.
    Usage,
    /// There was no memory to read the options.
    NoMemory,
}

// The words of the options and of the command, where they ask for something.
fn split_words(words: &[String]) -> Option<(&[String], &[String])>
    ensures { SplitsInto words.now result }
{
    let Some(at) = options_len(words) else {
        return None;
    };
    let (options, rest) = words.split_at(at);
    let Some(command) = command_in(rest) else {
        return None;
    };
    Some((options, command))
}

/// Reads the words behind the program's name: the options `--disk PATH`, `--backups PATH` and
/// `--db DIR` in any order, each once at most; one `--` or none; and a command, of which no word
/// begins with a hyphen unless `--` stood before. A root that isn't given is `ldb_disk` or
/// `ldb_backups`, a folder that isn't is `db`. Which commands there are the caller says.
///
/// No memory is taken before the words are known to ask for something.
pub fn read_words<'a>(alloc: Global, words: &'a [String]) -> Result<Asked<'a>, WordsError>
    ensures ok { IfOk result (λ asked. asked_by (texts words.entry.now) ≡ Some (asked_in asked)) }
    ensures usage { (result ≡ Err WordsError.Usage) ↔ (asked_by (texts words.entry.now) ≡ None) }
{
    let Some((options, command)) = split_words(words) else {
        return Err(WordsError::Usage);
    };
    let given = match read_given(alloc, options) {
        Ok(given) => given,
        Err(error) => {
            match error.kind() {
                ErrorKind::OutOfMemory => return Err(WordsError::NoMemory),
                _ => unreachable!(),
            }
        }
    };
    let Ok(db) = Folder::parse(given.get_str("db").unwrap_or("db").as_bytes()) else {
        unreachable!()
    };
    Ok(Asked {
        disk: given.get_str("disk").unwrap_or("ldb_disk"),
        backups: given.get_str("backups").unwrap_or("ldb_backups"),
        db,
        command,
    })
}
