//! The writing of the temporary file, and the switch of the name to it.
ghost use Rattle.std.specs.Prelude.{◌≡◌, ◌≢◌, ℕ, List, length, Some, None, OnOk, IfSome, IfErr};
ghost use Rattle.lsm_disk.specs.State.{State, Story, state_of};
ghost use Rattle.lsm_disk.specs.Images.{Tree, IsImage, bytes_at};
ghost use Rattle.lsm_disk.specs.Goes.{Went};
ghost use Rattle.lsm_disk.specs.Halts.{IsAmong};
ghost use Rattle.lsm_disk.specs.Refusals.{no_room, no_rename};
ghost use Rattle.lsm_disk.specs.Answers.{HasDiskCause};
ghost use Rattle.lsm_disk.specs.declared.calls.DiskCall.TheVariants as calls;
ghost use Rattle.lsm_publish.specs.Publishing.{Old, StillHas, HasOld, HasOldOrNew, Writes, Switches, Publishes, IsReady, IsPublished, Written, Switched, Published, write_calls, switch_calls, publish_calls, no_publishing, AnswersAs, PassedFirst, SyncsNeedNoMemory};

use lsm_disk::{Disk, DiskCall, DiskError, DiskRefusal, Halt};
use lsm_names::Path;

fn refused(call: DiskCall, path: &Path, why: DiskError) -> DiskRefusal
    ensures { result ≡ record { at = record { call = call; path = path.now }; why = why } }
{
    DiskRefusal {
        at: Halt { call, path: *path },
        why,
    }
}

/// Makes a file of these bytes under a free name, with all of it durable: the bytes are synced
/// before the names are. A refused call leaves what was made.
pub fn write_temporary<D: Disk>(
    disk: &mut D,
    temporary: &Path,
    bytes: &[u8],
) -> Result<(), DiskRefusal>
    // Another name has throughout what it had, and each refusal says how far the file came.
    ensures went { (story : Story) (path : List ℕ) (old : Old) → (D.seen disk.old).told ≡ Some story
        → StillHas path old (state_of story) → path ≢ temporary.now
        → Went story (D.seen disk.new).told (Writes temporary.now (length (state_of story).files)) (HasOld path old)
        (Written temporary.now path old (length (state_of story).files) bytes.now result) }
    ensures free { OnOk result (IfSome (D.seen disk.old).told (λ story. no_room temporary.now (state_of story) ≡ None)) }
    ensures at { IfErr result (λ r. IsAmong r.at (write_calls temporary.now)) }
    ensures answer { AnswersAs (no_room temporary.now) (D.seen disk.old) result }
    ensures passed { PassedFirst calls.Create (no_room temporary.now) (D.seen disk.old) result }
    ensures memory { SyncsNeedNoMemory result }
    ensures cause { HasDiskCause (D.seen disk.old) (D.seen disk.new) result }
{
    if let Err(why) = disk.create(temporary) {
        return Err(refused(DiskCall::Create, temporary, why));
    }
    if let Err(why) = disk.append(temporary, bytes) {
        return Err(refused(DiskCall::Append, temporary, why));
    }
    if let Err(why) = disk.sync(temporary) {
        return Err(refused(DiskCall::Sync, temporary, why));
    }
    if let Err(why) = disk.sync_names() {
        return Err(refused(DiskCall::SyncNames, temporary, why));
    }
    Ok(())
}

/// Gives a durable file the place of what stands under a name, so that a crash leaves the one
/// or the other.
pub fn switch<D: Disk>(disk: &mut D, temporary: &Path, path: &Path) -> Result<(), DiskRefusal>
    // Where the file was written whole, each image on the way has under the name what it had,
    // or the new bytes.
    ensures went { (story : Story) (old : Old) (id : ℕ) (bytes : List ℕ) → (D.seen disk.old).told ≡ Some story
        → IsReady temporary.now path.now old id bytes (state_of story)
        → Went story (D.seen disk.new).told (Switches temporary.now path.now) (HasOldOrNew path.now old bytes)
        (Switched temporary.now path.now old id bytes result) }
    ensures at { IfErr result (λ r. IsAmong r.at (switch_calls path.now)) }
    ensures answer { AnswersAs (no_rename temporary.now path.now) (D.seen disk.old) result }
    ensures passed { PassedFirst calls.Rename (no_rename temporary.now path.now) (D.seen disk.old) result }
    ensures memory { SyncsNeedNoMemory result }
    ensures cause { HasDiskCause (D.seen disk.old) (D.seen disk.new) result }
{
    if let Err(why) = disk.rename(temporary, path) {
        return Err(refused(DiskCall::Rename, path, why));
    }
    if let Err(why) = disk.sync_names() {
        return Err(refused(DiskCall::SyncNames, path, why));
    }
    Ok(())
}

/// Puts these bytes under a name, in six calls of the disk: create, append, sync and sync of
/// names under the temporary name, then the rename and the second sync of names. The temporary
/// name has to be free, and is left behind where a call between is refused.
pub fn publish<D: Disk>(
    disk: &mut D,
    temporary: &Path,
    path: &Path,
    bytes: &[u8],
) -> Result<(), DiskRefusal>
    // Where the name had a file that outlives a crash, or durably none: each image on the way
    // has under it what it had, or the new bytes, whole. After Ok each image has the new.
    ensures went { (story : Story) (old : Old) → (D.seen disk.old).told ≡ Some story → StillHas path.now old (state_of story)
        → path.now ≢ temporary.now
        → Went story (D.seen disk.new).told (Publishes temporary.now path.now (length (state_of story).files))
        (HasOldOrNew path.now old bytes.now)
        (Published temporary.now path.now old (length (state_of story).files) bytes.now result) }
    ensures free { OnOk result (IfSome (D.seen disk.old).told (λ story. no_room temporary.now (state_of story) ≡ None)) }
    ensures at { IfErr result (λ r. IsAmong r.at (publish_calls temporary.now path.now)) }
    ensures answer { AnswersAs (no_publishing temporary.now path.now) (D.seen disk.old) result }
    ensures memory { SyncsNeedNoMemory result }
    ensures cause { HasDiskCause (D.seen disk.old) (D.seen disk.new) result }
{
    write_temporary(disk, temporary, bytes)?;
    switch(disk, temporary, path)?;
    Ok(())
}

/// What was published is whole in each image.
pub fn published_in_each_image()
    ensures { (s : State) (path : List ℕ) (id : ℕ) (bytes : List ℕ) (t : Tree) → IsPublished path id bytes s → IsImage s t
        → bytes_at t path ≡ Some bytes }
{}
