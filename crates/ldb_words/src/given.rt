//! The values of options, as clap reads them. It is given the words of the options alone, once they
//! are known to be right: of itself it takes more, as `--db=x` and an option behind a command word.
ghost use Rattle.std.specs.Prelude.{◌≡◌, List, IfOk, IfErr};
ghost use Rattle.clap.specs.Words.{kind_of};
ghost use Rattle.ldb_words.specs.Words.{Pair};
ghost use Rattle.ldb_words.specs.Parts.{AreOptions, AreGiven};
ghost use Rattle.ldb_words.specs.Reading.{texts};

use clap::error::ErrorKind;
use clap::{Arg, ArgAction, ArgMatches, Command, Error};
use std::alloc::Global;

/// Reads words that are options, each right and given once: then it fails for want of memory alone.
pub(crate) fn read_given<'a>(alloc: Global, words: &'a [String]) -> Result<ArgMatches<'a>, Error>
    ensures ok { IfOk result (λ matches. (options : List Pair) → AreOptions options (texts words.entry.now)
        → AreGiven options matches) }
    ensures err { IfErr result (λ e. (options : List Pair) → AreOptions options (texts words.entry.now)
        → kind_of e ≡ ErrorKind.OutOfMemory) }
{
    let disk = Arg::new(alloc, "disk").long("disk").action(ArgAction::Set);
    let backups = Arg::new(alloc, "backups")
        .long("backups")
        .action(ArgAction::Set);
    let db = Arg::new(alloc, "db").long("db").action(ArgAction::Set);
    let command = Command::new(alloc, "ldb")
        .no_binary_name(true)
        .disable_help_flag(true)
        .disable_version_flag(true)
        .arg(disk)?
        .arg(backups)?
        .arg(db)?;
    command.try_get_matches_from(words)
}
