//! The paths that a creation makes.
ghost use Rattle.std.specs.Prelude.{◌≡◌, ◌<◌, ◌^◌, IsTrue, true};
ghost use Rattle.lsm_names.specs.Paths.{is_path};
ghost use Rattle.bk_meta.specs.declared.backup_files.BackupFile.TheVariants.{Private};
ghost use Rattle.bk_meta.specs.BackupFiles.{path_of, IsBackupFile};
ghost use Rattle.bk_tree.specs.Places.{meta_path};
ghost use Rattle.bk_engine.specs.Paths.{own_folder, temporary_path};

use arrayvec::ArrayString;
use itoa::Buffer;
use lsm_names::{FileName, PATH_LIMIT, Path};

/// The path of a text that is one.
fn path_of(text: &ArrayString<PATH_LIMIT>) -> Path
    requires { IsTrue (is_path text.now.bytes) }
    ensures { result ≡ text.now.bytes }
{
    Path::parse(text.as_bytes()).unwrap()
}

/// The folder that a backup has for itself: `private/<id>`.
pub(crate) fn own_folder(id: u32) -> Path
    ensures { result ≡ own_folder id }
{
    let mut text = ArrayString::new();
    text.push_str("private/");
    text.push_str(Buffer::new().format(id));
    path_of(&text)
}

/// A file of a backup's own folder: `private/<id>/<name>`.
pub(crate) fn own_path(id: u32, name: &FileName) -> Path
    requires { IsBackupFile (Private name.now) }
    ensures { result ≡ path_of id (Private name.now) }
{
    let mut text = ArrayString::new();
    text.push_str("private/");
    text.push_str(Buffer::new().format(id));
    text.push_str("/");
    text.push_str(name.print().as_str());
    path_of(&text)
}

/// Where a meta is written before it is published: `meta/.<id>.tmp`.
pub(crate) fn temporary_path(id: u32) -> Path
    ensures { result ≡ temporary_path id }
{
    let mut text = ArrayString::new();
    text.push_str("meta/.");
    text.push_str(Buffer::new().format(id));
    text.push_str(".tmp");
    path_of(&text)
}

/// Where a meta stands: `meta/<id>`.
pub(crate) fn meta_path(id: u32) -> Path
    ensures { result ≡ meta_path id }
{
    let mut text = ArrayString::new();
    text.push_str("meta/");
    text.push_str(Buffer::new().format(id));
    path_of(&text)
}
