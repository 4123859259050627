//! The trait of a disk. A disk that tells what it holds is seen as data: a start, and the list
//! of the changes since. What it holds now and what a crash may leave is computed from these.
ghost use Rattle.std.specs.Prelude.{◌≡◌, ◌<◌, ◌≤◌, IfOk, IfSome, length};
ghost use Rattle.lsm_io.specs.Causes.{Rose};
ghost use Rattle.lsm_disk.specs.Names.{stands};
ghost use Rattle.lsm_disk.specs.State.{Seen, state_of, names_now, file_now, bytes_of, created, folder_made, appended, file_synced, names_synced, linked, renamed_by, unnamed};
ghost use Rattle.lsm_disk.specs.Tree.{TellsLawful};
ghost use Rattle.lsm_disk.specs.Kinds.{kind_of};
ghost use Rattle.lsm_disk.specs.Listing.{listing};
ghost use Rattle.lsm_disk.specs.Viewed.{opened};
ghost use Rattle.lsm_disk.specs.Refusals.{never, no_file, no_folder, no_room, no_link, no_view, no_rename, no_removal};
ghost use Rattle.lsm_disk.specs.Answers.{Did, Appends, Answers, TakesNoMemory, HasCause};

use crate::{DiskError, Kind, Listing, View};
use lsm_names::Path;

/// A disk of files and folders. Files are only appended to, and a file's bytes belong to the
/// file, whatever names it has.
///
/// Each call says in `did` what it changed, in `answer` which answer it gave and why, where the
/// disk tells, and in `cause` which count rose, on every disk. `lawful` says that the names of a
/// disk that tells make a tree. A `Fault` may come at any call, and `NoMemory` at a call that
/// has no clause `memory`.
pub trait Disk {
    type View: View;

    /// What is seen of the disk: its story, where it tells one, and its counts of faults and of
    /// refusals.
    ghost seen: { Self → Seen };

    /// What stands under a name.
    fn kind(&mut self, path: &Path) -> Result<Option<Kind>, DiskError>
        ensures kind { IfOk result (λ kind. IfSome (seen self.old).told
            (λ story. kind ≡ kind_of (stands (names_now (state_of story)) path.now))) }
        ensures did { (seen self.new).told ≡ (seen self.old).told }
        ensures answer { Answers never (seen self.old) result }
        ensures memory { TakesNoMemory result }
        ensures cause { HasCause (seen self.old) (seen self.new) result }
        ensures lawful { TellsLawful (seen self.old) };

    /// What stands directly in a folder, in the order of bytes. What isn't spelled as a `Path` is
    /// left out.
    fn list(&mut self, folder: &Path) -> Result<Listing, DiskError>
        ensures listed { IfOk result (λ entries. IfSome (seen self.old).told
            (λ story. entries ≡ listing folder.now (names_now (state_of story)))) }
        ensures did { (seen self.new).told ≡ (seen self.old).told }
        ensures answer { Answers (no_folder folder.now) (seen self.old) result }
        ensures cause { HasCause (seen self.old) (seen self.new) result }
        ensures lawful { TellsLawful (seen self.old) };

    /// A file's length in bytes.
    fn size(&mut self, path: &Path) -> Result<u64, DiskError>
        ensures size { IfOk result (λ size. IfSome (seen self.old).told
            (λ story. size ≡ length (bytes_of (file_now path.now (state_of story))))) }
        ensures did { (seen self.new).told ≡ (seen self.old).told }
        ensures answer { Answers (no_file path.now) (seen self.old) result }
        ensures memory { TakesNoMemory result }
        ensures cause { HasCause (seen self.old) (seen self.new) result }
        ensures lawful { TellsLawful (seen self.old) };

    /// A view of a file's first `len` bytes.
    fn open(&mut self, path: &Path, len: u64) -> Result<Self::View, DiskError>
        ensures view { IfOk result (λ view. Self.View.viewed view ≡ opened path.now len (seen self.old).told) }
        ensures did { (seen self.new).told ≡ (seen self.old).told }
        ensures answer { Answers (no_view path.now len) (seen self.old) result }
        ensures cause { HasCause (seen self.old) (seen self.new) result }
        ensures lawful { TellsLawful (seen self.old) };

    /// Takes a view back. A view that had a fault raises the disk's count.
    fn close(&mut self, view: Self::View)
        ensures did { (seen self.new).told ≡ (seen self.old).told }
        ensures later { (seen self.old).faults ≤ (seen self.new).faults }
        ensures faults { 0 < (Self.View.viewed view).faults → Rose (seen self.old).faults (seen self.new).faults }
        ensures refusals { (seen self.old).refusals ≤ (seen self.new).refusals };

    /// Makes a new empty file.
    fn create(&mut self, path: &Path) -> Result<(), DiskError>
        ensures did { Did (created path.now) (no_room path.now) (seen self.old) (seen self.new) result }
        ensures answer { Answers (no_room path.now) (seen self.old) result }
        ensures cause { HasCause (seen self.old) (seen self.new) result }
        ensures lawful { TellsLawful (seen self.old) };

    /// Adds bytes at a file's end. A fault may have added any front of them.
    fn append(&mut self, path: &Path, bytes: &[u8]) -> Result<(), DiskError>
        ensures did { Appends path.now bytes.now (seen self.old) (seen self.new) result }
        ensures answer { Answers (no_file path.now) (seen self.old) result }
        ensures cause { HasCause (seen self.old) (seen self.new) result }
        ensures lawful { TellsLawful (seen self.old) };

    /// A file's bytes outlive a crash.
    fn sync(&mut self, path: &Path) -> Result<(), DiskError>
        ensures did { Did (file_synced path.now) (no_file path.now) (seen self.old) (seen self.new) result }
        ensures answer { Answers (no_file path.now) (seen self.old) result }
        ensures memory { TakesNoMemory result }
        ensures cause { HasCause (seen self.old) (seen self.new) result }
        ensures lawful { TellsLawful (seen self.old) };

    /// Gives a file a second name.
    fn link(&mut self, from: &Path, to: &Path) -> Result<(), DiskError>
        ensures did { Did (linked from.now to.now) (no_link from.now to.now) (seen self.old) (seen self.new) result }
        ensures answer { Answers (no_link from.now to.now) (seen self.old) result }
        ensures cause { HasCause (seen self.old) (seen self.new) result }
        ensures lawful { TellsLawful (seen self.old) };

    /// Gives what stands under a name another name. A file may take a file's place, and a folder
    /// goes to a free name with all that is inside.
    fn rename(&mut self, from: &Path, to: &Path) -> Result<(), DiskError>
        ensures did { Did (renamed_by from.now to.now) (no_rename from.now to.now) (seen self.old) (seen self.new) result }
        ensures answer { Answers (no_rename from.now to.now) (seen self.old) result }
        ensures cause { HasCause (seen self.old) (seen self.new) result }
        ensures lawful { TellsLawful (seen self.old) };

    /// Takes a file's name away. Its bytes stay as long as it has another name or a view.
    fn unlink(&mut self, path: &Path) -> Result<(), DiskError>
        ensures did { Did (unnamed path.now) (no_file path.now) (seen self.old) (seen self.new) result }
        ensures answer { Answers (no_file path.now) (seen self.old) result }
        ensures memory { TakesNoMemory result }
        ensures cause { HasCause (seen self.old) (seen self.new) result }
        ensures lawful { TellsLawful (seen self.old) };

    /// Makes a new folder.
    fn make_folder(&mut self, path: &Path) -> Result<(), DiskError>
        ensures did { Did (folder_made path.now) (no_room path.now) (seen self.old) (seen self.new) result }
        ensures answer { Answers (no_room path.now) (seen self.old) result }
        ensures cause { HasCause (seen self.old) (seen self.new) result }
        ensures lawful { TellsLawful (seen self.old) };

    /// Takes an empty folder away.
    fn remove_folder(&mut self, path: &Path) -> Result<(), DiskError>
        ensures did { Did (unnamed path.now) (no_removal path.now) (seen self.old) (seen self.new) result }
        ensures answer { Answers (no_removal path.now) (seen self.old) result }
        ensures memory { TakesNoMemory result }
        ensures cause { HasCause (seen self.old) (seen self.new) result }
        ensures lawful { TellsLawful (seen self.old) };

    /// All name operations so far outlive a crash.
    fn sync_names(&mut self) -> Result<(), DiskError>
        ensures did { Did names_synced never (seen self.old) (seen self.new) result }
        ensures answer { Answers never (seen self.old) result }
        ensures memory { TakesNoMemory result }
        ensures cause { HasCause (seen self.old) (seen self.new) result }
        ensures lawful { TellsLawful (seen self.old) };
}
