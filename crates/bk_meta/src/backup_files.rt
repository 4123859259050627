//! The files of a backup, by their paths in the backup folder.
ghost use Rattle.std.specs.Prelude.{◌≡◌, Option, Some, None, IsTrue};
ghost use Rattle.std.specs.Option.{option_map};
ghost use Rattle.lsm_names.specs.FileNames.{is_file_number};
ghost use Rattle.lsm_names.specs.SharedNames.{IsSharedName};
ghost use Rattle.bk_meta.specs.declared.backup_files.BackupFile.TheVariants.{Private, Shared};
ghost use Rattle.bk_meta.specs.BackupFiles.{file_at, private_name, shared_name, private_folder};

use arrayvec::ArrayString;
use itoa::Buffer;
use lsm_names::{FileName, SharedName};

/// The most bytes of `private/<id>/`.
const FOLDER_LIMIT: usize = 24;

/// A file of a backup.
#[derive(Clone, Copy, Debug, PartialEq, Eq)]
pub enum BackupFile {
    /// `private/<id>/` and the name of a log, a manifest or `CURRENT`: the backup has it for itself.
    Private(FileName),
    /// `shared_checksum/` and the name of a table, which other backups may have too.
    Shared(SharedName),
}

impl BackupFile {
    /// The file that a path names in the backup of this identifier. Each file has one path.
    #[tactic(auto, unfolding(crate::specs::BackupFiles::file_at))]
    pub fn parse(id: u32, path: &[u8]) -> Option<BackupFile>
        ensures { result ≡ file_at id path.now }
    {
        if let Some(name) = path.strip_prefix(private_folder(id).as_bytes()) {
            return match private_name(name) {
                Some(name) => Some(BackupFile::Private(name)),
                None => None,
            };
        }
        match shared_name(path.strip_prefix(b"shared_checksum/")?) {
            Some(name) => Some(BackupFile::Shared(name)),
            None => None,
        }
    }
}

/// The folder that a backup has for itself, with the slash behind it.
fn private_folder(id: u32) -> ArrayString<FOLDER_LIMIT>
    ensures { result.bytes ≡ private_folder id }
{
    let mut folder = ArrayString::new();
    folder.push_str("private/");
    folder.push_str(Buffer::new().format(id));
    folder.push_str("/");
    folder
}

/// The log, the manifest or the `CURRENT` of this name.
fn private_name(text: &[u8]) -> Option<FileName>
    ensures { result ≡ private_name text.now }
{
    match FileName::parse(text).ok()? {
        FileName::Table(_) | FileName::Temp(_) => None,
        name => Some(name),
    }
}

/// The shared table of this name.
fn shared_name(text: &[u8]) -> Option<SharedName>
    ensures { result ≡ shared_name text.now }
{
    let name = SharedName::parse(text).ok()?;
    keeps_its_rules(&name);
    Some(name)
}

/// For the proof of its caller: what the types of a name's parts keep.
fn keeps_its_rules(name: &SharedName)
    requires { IsTrue (is_file_number name.now.number) }
    ensures { IsSharedName name.now }
{
    let _session = name.session.as_bytes();
    let _size = name.size;
}
