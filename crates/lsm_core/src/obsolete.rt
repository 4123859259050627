//! The files of a store's folder that nothing needs any more.
ghost use Rattle.std.specs.Prelude.{◌≡◌, All, IfSome};
ghost use Rattle.lsm_names.specs.FileNames.{IsFileName};
ghost use Rattle.lsm_core.specs.Obsolete.{IsNext, deleting, earlier, earlier_of, is_used, is_writing, with_name};

use crate::catalog::Catalog;
use lsm_disk::View;
use lsm_names::FileName;
use std::cmp::Ordering;

/// Of the known names that nothing needs, the first in the order of their bytes. Needed are
/// `CURRENT`, the manifest of this number, the logs from the catalog's number on, live tables, the
/// table that is being written, and what pins hold. It takes no memory. Its time grows with the
/// number of known names, and for each that nothing else needs with the number of pinned files.
pub fn next_obsolete<V: View>(
    known: &[FileName],
    catalog: &Catalog<V>,
    manifest: u64,
    writing: Option<u64>,
) -> Option<FileName>
    requires { All IsFileName known.now }
    ensures { IsNext (deleting known.now manifest writing catalog.now) result }
{
    let mut first = None;
    for name in known {
        first = with_name(first, *name, catalog, manifest, writing);
    }
    first
}

// The first of the obsolete names, once this name is looked at too.
fn with_name<V: View>(
    first: Option<FileName>,
    name: FileName,
    catalog: &Catalog<V>,
    manifest: u64,
    writing: Option<u64>,
) -> Option<FileName>
    requires name { IsFileName name }
    requires first { IfSome first IsFileName }
    ensures is { result ≡ with_name catalog.now manifest writing first name }
    ensures fit { IfSome result IsFileName }
{
    if is_used(name, catalog, manifest, writing) {
        return first;
    }
    Some(earlier_of(first, name))
}

// Whether the file of a name is needed or being written.
fn is_used<V: View>(
    name: FileName,
    catalog: &Catalog<V>,
    manifest: u64,
    writing: Option<u64>,
) -> bool
    ensures { result ≡ is_used catalog.now manifest writing name }
{
    let is_needed = match name {
        FileName::Current => true,
        FileName::Manifest(number) => number == manifest,
        FileName::Table(number) => catalog.has_table(number) || is_writing(writing, number),
        FileName::Log(number) => catalog.log() <= number,
        FileName::Temp(_) => false,
    };
    is_needed || catalog.is_pinned(name)
}

// Whether the table that is being written, if there is one, has this number.
fn is_writing(writing: Option<u64>, number: u64) -> bool
    ensures { result ≡ is_writing writing number }
{
    match writing {
        Some(own) => own == number,
        None => false,
    }
}

// The earlier of two names, where the first is there.
fn earlier_of(first: Option<FileName>, name: FileName) -> FileName
    requires name { IsFileName name }
    requires first { IfSome first IsFileName }
    ensures is { result ≡ earlier_of first name }
    ensures fit { IsFileName result }
{
    match first {
        Some(first) => earlier(first, name),
        None => name,
    }
}

// The earlier of two names in the order of their bytes.
fn earlier(first: FileName, name: FileName) -> FileName
    requires first { IsFileName first }
    requires name { IsFileName name }
    ensures is { result ≡ earlier first name }
    ensures fit { IsFileName result }
{
    match first.path().cmp(&name.path()) {
        Ordering::Greater => name,
        Ordering::Less | Ordering::Equal => first,
    }
}
