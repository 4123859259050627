//! What a line of a script asks for.
ghost use Rattle.std.specs.Prelude.{◌≡◌, ◌==◌, ◌∷◌, ℕ, IfOk, map, length, Option, None, Some};
ghost use Rattle.std.specs.List.{slice_split};
ghost use Rattle.std.specs.Option.{option_map};
ghost use Rattle.ldb_script.specs.Words.{bytes_of_word};
ghost use Rattle.ldb_script.specs.Script.{
  is_blank,
  a_put,
  a_delete,
  first_operation,
  words_in,
  operations,
  write_of,
  a_get,
  a_bare,
  a_write,
  folder_of,
  is_spelled_identifier,
  identifier_of,
  a_show,
  a_restore,
  a_backup,
  command_of,
  line_of_words,
  line_of,
};

use crate::operations::Operations;
use crate::words::{all_words, bytes_of_word, is_actor, split_words};
use itoa::Buffer;
use lsm_bytes::{Bytes, NoMemory};
use lsm_names::Folder;
use lsm_rows::Op;
use std::alloc::Global;
use std::str;

/// What an actor asks for.
#[derive(Drop)]
pub enum Command {
    /// Writes a batch of these operations. Where `durable`, it outlives each crash once it is answered.
    Write { durable: bool, ops: Operations },
    /// Makes all writes so far outlive each crash.
    Sync,
    /// Asks for a key's value.
    Get { key: Bytes },
    /// Asks for each pair.
    Scan,
    /// Asks for the last sequence, and how many keys have a value.
    State,
    /// Asks for what a folder of the store's disk holds.
    ShowFolder { name: Folder },
    /// Makes a backup of the store.
    CreateBackup,
    /// Asks which backups there are.
    ListBackups,
    /// Restores a backup into a new folder of the store's disk.
    RestoreBackup { id: u32, name: Folder },
}

/// A line of a script.
#[derive(Drop)]
pub enum Line {
    /// An empty line, or a comment: it does nothing.
    Blank,
    /// A command of an actor.
    Ask { actor: Bytes, command: Command },
}

fn is_blank(line: &[u8]) -> bool
    ensures { result ≡ is_blank line.now }
{
    match line {
        [] => true,
        [first, ..] => *first == b'#',
    }
}

fn parse_put(alloc: Global, key: &[u8], value: &[u8]) -> Result<Option<Op>, NoMemory>
    ensures { IfOk result (λ op. op ≡ a_put (bytes_of_word key.now) (bytes_of_word value.now)) }
{
    let Some(key) = bytes_of_word(alloc, key)? else {
        return Ok(None);
    };
    match bytes_of_word(alloc, value)? {
        Some(value) => Ok(Some(Op::Put { key, value })),
        None => Ok(None),
    }
}

fn parse_delete(alloc: Global, key: &[u8]) -> Result<Option<Op>, NoMemory>
    ensures { IfOk result (λ op. op ≡ a_delete (bytes_of_word key.now)) }
{
    match bytes_of_word(alloc, key)? {
        Some(key) => Ok(Some(Op::Delete { key })),
        None => Ok(None),
    }
}

// The operation that the words begin with.
fn parse_operation(alloc: Global, words: &[&[u8]]) -> Result<Option<Op>, NoMemory>
    ensures { IfOk result (λ op. op ≡ first_operation (map (λ w. w.now) words.now)) }
{
    match words {
        [verb, key, value, ..] => {
            if *verb == b"del".as_slice() {
                parse_delete(alloc, key)
            } else if *verb == b"put".as_slice() {
                parse_put(alloc, key, value)
            } else {
                Ok(None)
            }
        }
        [verb, key] => {
            if *verb == b"del".as_slice() {
                parse_delete(alloc, key)
            } else {
                Ok(None)
            }
        }
        _ => Ok(None),
    }
}

// How many words name an operation.
fn words_in(op: &Op) -> usize
    ensures { result ≡ words_in op.now }
{
    match op {
        Op::Put { .. } => 3,
        Op::Delete { .. } => 2,
    }
}

fn parse_operations(alloc: Global, words: &[&[u8]]) -> Result<Option<Vec<Op>>, NoMemory>
    ensures { IfOk result (λ ops. option_map (λ v. v.items) ops ≡ operations (map (λ w. w.now) words.now)) }
{
    let mut ops = Vec::new(alloc);
    let mut at = 0;
    while at < words.len() {
        let Some(op) = parse_operation(alloc, words.split_at(at).1)? else {
            return Ok(None);
        };
        at += words_in(&op);
        ops.push(op)?;
    }
    Ok(Some(ops))
}

fn parse_write(alloc: Global, words: &[&[u8]]) -> Result<Option<Operations>, NoMemory>
    ensures { IfOk result (λ ops. ops ≡ write_of (map (λ w. w.now) words.now)) }
{
    let Some((verb, rest)) = words.split_first() else {
        return Ok(None);
    };
    if *verb == b"batch".as_slice() {
        match parse_operations(alloc, rest)? {
            Some(ops) => Ok(Operations::some_of(ops)),
            None => Ok(None),
        }
    } else {
        match parse_operations(alloc, words)? {
            Some(ops) => Ok(Operations::one_of(ops)),
            None => Ok(None),
        }
    }
}

// A write's command.
fn asked(durable: bool, ops: Option<Operations>) -> Option<Command>
    ensures { result ≡ a_write durable ops }
{
    match ops {
        Some(ops) => Some(Command::Write { durable, ops }),
        None => None,
    }
}

fn parse_get(alloc: Global, words: &[&[u8]]) -> Result<Option<Command>, NoMemory>
    ensures { IfOk result (λ command. command ≡ a_get (map (λ w. w.now) words.now)) }
{
    let [key] = words else {
        return Ok(None);
    };
    match bytes_of_word(alloc, key)? {
        Some(key) => Ok(Some(Command::Get { key })),
        None => Ok(None),
    }
}

// A command that has no words behind its own.
fn bare(command: Command, words: &[&[u8]]) -> Option<Command>
    ensures { result ≡ a_bare command (map (λ w. w.now) words.now) }
{
    if words.is_empty() {
        Some(command)
    } else {
        None
    }
}

fn folder_of(word: &[u8]) -> Option<Folder>
    ensures { result ≡ folder_of word.now }
{
    match Folder::parse(word) {
        Ok(name) => Some(name),
        Err(_) => None,
    }
}

// Whether the word spells this identifier.
fn is_spelling(id: u32, word: &[u8]) -> bool
    ensures { result ≡ is_spelled_identifier id word.now }
{
    1 <= id && word == Buffer::new().format(id).as_bytes()
}

fn identifier_of(word: &[u8]) -> Option<u32>
    ensures { result ≡ identifier_of word.now }
{
    let id: u32 = str::from_utf8(word).ok()?.parse().ok()?;
    if is_spelling(id, word) {
        Some(id)
    } else {
        None
    }
}

fn parse_show(words: &[&[u8]]) -> Option<Command>
    ensures { result ≡ a_show (map (λ w. w.now) words.now) }
{
    let [what, word] = words else {
        return None;
    };
    if *what == b"dir".as_slice() {
        Some(Command::ShowFolder {
            name: folder_of(word)?,
        })
    } else {
        None
    }
}

fn parse_restore(words: &[&[u8]]) -> Option<Command>
    ensures { result ≡ a_restore (map (λ w. w.now) words.now) }
{
    let [word, name] = words else {
        return None;
    };
    Some(Command::RestoreBackup {
        id: identifier_of(word)?,
        name: folder_of(name)?,
    })
}

// What is asked of backups.
fn parse_backup(words: &[&[u8]]) -> Option<Command>
    ensures { result ≡ a_backup (map (λ w. w.now) words.now) }
{
    let (verb, rest) = words.split_first()?;
    if *verb == b"create".as_slice() {
        bare(Command::CreateBackup, rest)
    } else if *verb == b"list".as_slice() {
        bare(Command::ListBackups, rest)
    } else if *verb == b"restore".as_slice() {
        parse_restore(rest)
    } else {
        None
    }
}

fn parse_command(alloc: Global, words: &[&[u8]]) -> Result<Option<Command>, NoMemory>
    ensures { IfOk result (λ command. command ≡ command_of (map (λ w. w.now) words.now)) }
{
    let Some((verb, rest)) = words.split_first() else {
        return Ok(None);
    };
    if *verb == b"get".as_slice() {
        parse_get(alloc, rest)
    } else if *verb == b"sync".as_slice() {
        Ok(bare(Command::Sync, rest))
    } else if *verb == b"scan".as_slice() {
        Ok(bare(Command::Scan, rest))
    } else if *verb == b"state".as_slice() {
        Ok(bare(Command::State, rest))
    } else if *verb == b"show".as_slice() {
        Ok(parse_show(rest))
    } else if *verb == b"backup".as_slice() {
        Ok(parse_backup(rest))
    } else if *verb == b"durable".as_slice() {
        Ok(asked(true, parse_write(alloc, rest)?))
    } else {
        Ok(asked(false, parse_write(alloc, words)?))
    }
}

fn parse_words(alloc: Global, words: &[&[u8]]) -> Result<Option<Line>, NoMemory>
    ensures { IfOk result (λ line. line ≡ line_of_words (map (λ w. w.now) words.now)) }
{
    let Some((actor, words)) = words.split_first() else {
        return Ok(None);
    };
    if !is_actor(actor) {
        return Ok(None);
    }
    match parse_command(alloc, words)? {
        Some(command) => {
            let actor = Bytes::from_slice(alloc, actor)?;
            Ok(Some(Line::Ask { actor, command }))
        }
        None => Ok(None),
    }
}

/// What a line asks for, where it is in the grammar. Its length is not looked at.
#[tactic(auto, unfolding(crate::specs::Script::line_of))]
pub fn parse_line(alloc: Global, line: &[u8]) -> Result<Option<Line>, NoMemory>
    ensures { IfOk result (λ parsed. parsed ≡ line_of line.now) }
{
    if is_blank(line) {
        return Ok(Some(Line::Blank));
    }
    let words = split_words(alloc, line)?;
    if all_words(words.as_slice()) {
        parse_words(alloc, words.as_slice())
    } else {
        Ok(None)
    }
}
