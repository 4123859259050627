//! What a folder's listing tells: its logs in the order of their numbers, the names of its files,
//! and the next number.
ghost use Rattle.std.specs.Prelude.{◌≡◌, ◌≤◌, ◌+◌, ◌<◌, ◌^◌, ◌∷◌, ◌++◌, [], Some, OnOk, IfOk, IfSome, IsTrue};
ghost use Rattle.lsm_names.specs.FileNames.{is_file_number, IsFileName};
ghost use Rattle.lsm_folder.specs.Names.{name_of, number_of};
ghost use Rattle.lsm_recover.specs.Listed.{log_in, log_number, lesser, next_log, names_in, next_number, number_behind};

use crate::known::Known;
use lsm_bytes::NoMemory;
use lsm_disk::{Entry, Kind};
use lsm_names::FileName;
use std::alloc::Global;

// The least number of a log among the entries, from this number on.
pub(crate) fn next_log(least: u64, entries: &[Entry]) -> Option<u64>
    ensures is { result ≡ next_log least entries.now }
    ensures number { IfSome result (λ number. IsTrue (is_file_number number)) }
    ensures later { IfSome result (λ number. least ≤ number) }
{
    let mut found = None;
    for entry in entries {
        found = lesser(found, log_in(least, entry));
    }
    found
}

// The number of the log that an entry is, from this number on.
fn log_in(least: u64, entry: &Entry) -> Option<u64>
    ensures is { result ≡ log_in least entry.now }
    ensures number { IfSome result (λ number. IsTrue (is_file_number number)) }
    ensures later { IfSome result (λ number. least ≤ number) }
{
    match entry.kind {
        Kind::File => log_named(least, entry.name.as_bytes()),
        Kind::Folder => None,
    }
}

// The number of the log whose name a text is, from this number on.
fn log_named(least: u64, text: &[u8]) -> Option<u64>
    ensures is { result ≡ log_number least (name_of text.now) }
    ensures number { IfSome result (λ number. IsTrue (is_file_number number)) }
    ensures later { IfSome result (λ number. least ≤ number) }
{
    match name_of(text) {
        Some(name) => log_number(least, name),
        None => None,
    }
}

// The file name that a text is.
pub(crate) fn name_of(text: &[u8]) -> Option<FileName>
    ensures is { result ≡ name_of text.now }
    ensures number { IfSome result IsFileName }
{
    match FileName::parse(text) {
        Ok(name) => Some(name),
        Err(_) => None,
    }
}

// The number of a log's name, from this number on.
fn log_number(least: u64, name: FileName) -> Option<u64>
    requires { IsFileName name }
    ensures is { result ≡ log_number least (Some name) }
    ensures number { IfSome result (λ number. IsTrue (is_file_number number)) }
    ensures later { IfSome result (λ number. least ≤ number) }
{
    match name {
        FileName::Log(number) => {
            if number < least {
                return None;
            }
            Some(number)
        }
        _ => None,
    }
}

// The lesser of two numbers, where they are there.
fn lesser(left: Option<u64>, right: Option<u64>) -> Option<u64>
    ensures { result ≡ lesser left right }
{
    match (left, right) {
        (None, other) => other,
        (Some(number), None) => Some(number),
        (Some(number), Some(other)) => Some(number.min(other)),
    }
}

// The names of a store's files among the entries, in their order.
pub(crate) fn names_in(alloc: Global, entries: &[Entry]) -> Result<Known, NoMemory>
    ensures { IfOk result (λ names. names ≡ names_in entries.now) }
{
    let mut names = Known::new(alloc);
    for entry in entries {
        push_name(&mut names, entry)?;
    }
    Ok(names)
}

// Adds the file name that an entry has, if it has one.
fn push_name(names: &mut Known, entry: &Entry) -> Result<(), NoMemory>
    ensures { OnOk result (names.new ≡ names.old ++ names_in (entry.now ∷ [])) }
{
    match name_of(entry.name.as_bytes()) {
        Some(name) => names.push(name),
        None => Ok(()),
    }
}

// The next file number, which is no smaller than this one and behind that of each file name among
// the entries.
pub(crate) fn next_number(next: u64, entries: &[Entry]) -> u64
    ensures { result ≡ next_number next entries.now }
{
    let mut next = next;
    for entry in entries {
        next = next.max(number_behind(entry.name.as_bytes()));
    }
    next
}

// The number behind that of the file name that a text is; 0 where it is none.
fn number_behind(text: &[u8]) -> u64
    ensures { result ≡ number_behind (name_of text.now) }
{
    match name_of(text) {
        Some(name) => number_of(name) + 1,
        None => 0,
    }
}

// The number of a file name; `CURRENT` has none.
fn number_of(name: FileName) -> u64
    requires { IsFileName name }
    ensures number { result ≡ number_of name }
    ensures small { result + 1 < 2 ^ 56 }
{
    match name {
        FileName::Log(number)
        | FileName::Table(number)
        | FileName::Manifest(number)
        | FileName::Temp(number) => number,
        FileName::Current => 0,
    }
}
