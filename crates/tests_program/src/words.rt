//! Lines of words, and what they ask for. The words of a line stand between its spaces.

use ldb_words::{Asked, WordsError, read_words};
use lsm_bytes::NoMemory;
use std::alloc::Global;

/// Words that ask for nothing. Two spaces have an empty word between them.
pub const USAGE: &[&str] = &[
    "",
    "--",
    "--db",
    "--db x",
    "--db x --",
    "--db=x state",
    "--db a --db b state",
    "--db a --disk b --db a state",
    "--db -- state",
    "--db a/b state",
    "--db A state",
    "--disk -x state",
    "--disk --disk x",
    "--disk  state",
    "--disks x state",
    "state --db a",
    "get -a",
    "get -- -a",
    "-d x state",
    "put  1",
    "put a ",
    "put a \u{e9}",
    "put a\t1",
    "--help",
    "--version",
    "-h",
];

/// Words, and what they ask for: the two roots, the folder of the store, and the command.
pub const ASKED: &[(&str, &str, &str, &str, &str)] = &[
    ("state", "ldb_disk", "ldb_backups", "db", "state"),
    ("put a 1", "ldb_disk", "ldb_backups", "db", "put a 1"),
    ("get a", "ldb_disk", "ldb_backups", "db", "get a"),
    ("--db db2 state", "ldb_disk", "ldb_backups", "db2", "state"),
    ("-- get -a", "ldb_disk", "ldb_backups", "db", "get -a"),
    ("-- --db x", "ldb_disk", "ldb_backups", "db", "--db x"),
    ("-- -- x", "ldb_disk", "ldb_backups", "db", "-- x"),
    ("--disk a script", "a", "ldb_backups", "db", "script"),
    ("--backups b script", "ldb_disk", "b", "db", "script"),
    (
        "--db d --backups /b/c=d --disk a\u{e9} -- backup list",
        "a\u{e9}",
        "/b/c=d",
        "d",
        "backup list",
    ),
];

fn words_of(alloc: Global, line: &str) -> Result<Vec<String>, NoMemory> {
    let mut words = Vec::new(alloc);
    for word in line.split(' ') {
        words.push(String::from_str(alloc, word)?)?;
    }
    Ok(words)
}

fn is_usage(alloc: Global, words: &[String]) -> Result<bool, NoMemory> {
    match read_words(alloc, words) {
        Ok(_) => Ok(false),
        Err(WordsError::Usage) => Ok(true),
        Err(WordsError::NoMemory) => Err(NoMemory),
    }
}

/// Whether no words, and each of these lines, ask for nothing.
pub fn all_usage(alloc: Global, lines: &[&str]) -> Result<bool, NoMemory> {
    for line in lines {
        let words = words_of(alloc, line)?;
        if !is_usage(alloc, words.as_slice())? {
            return Ok(false);
        }
    }
    let none = Vec::new(alloc);
    is_usage(alloc, none.as_slice())
}

// Whether the words are those of the line.
fn are_words(words: &[String], line: &str) -> bool {
    let mut at = 0;
    for word in line.split(' ') {
        match words.get(at) {
            Some(found) if found.as_str() == word => at += 1,
            _ => return false,
        }
    }
    at == words.len()
}

fn is_asked(asked: &Asked<'_>, disk: &str, backups: &str, db: &str, command: &str) -> bool {
    asked.disk == disk
        && asked.backups == backups
        && asked.db.as_str() == db
        && are_words(asked.command, command)
}

fn asks(
    alloc: Global,
    line: &str,
    disk: &str,
    backups: &str,
    db: &str,
    command: &str,
) -> Result<bool, NoMemory> {
    let words = words_of(alloc, line)?;
    match read_words(alloc, words.as_slice()) {
        Ok(asked) => Ok(is_asked(&asked, disk, backups, db, command)),
        Err(WordsError::Usage) => Ok(false),
        Err(WordsError::NoMemory) => Err(NoMemory),
    }
}

/// Whether each of these lines asks for what stands behind it.
pub fn all_ask(alloc: Global, rows: &[(&str, &str, &str, &str, &str)]) -> Result<bool, NoMemory> {
    for (line, disk, backups, db, command) in rows {
        if !asks(alloc, line, disk, backups, db, command)? {
            return Ok(false);
        }
    }
    Ok(true)
}
