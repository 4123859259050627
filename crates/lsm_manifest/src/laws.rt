//! Laws of manifests: each is the contract of a function that does nothing.
ghost use Rattle.std.specs.Prelude.{◌≡◌, ◌≢◌, ℕ, List, [], ◌∷◌, ◌++◌, Some, None, All, IsTrue};
ghost use Rattle.lsm_names.specs.Numbers.{is_file_number};
ghost use Rattle.lsm_publish.specs.Publishing.{Old, StillHas, ShowsOld};
ghost use Rattle.lsm_version.specs.declared.edits.Edit.{Edit};
ghost use Rattle.lsm_disk.specs.State.{State, Change, after};
ghost use Rattle.lsm_disk.specs.Refusals.{no_file};
ghost use Rattle.lsm_disk.specs.Kept.{Spares};
ghost use Rattle.lsm_disk.specs.Images.{Tree, IsImage, bytes_at};
ghost use Rattle.lsm_wal.specs.Reading.{open_end};
ghost use Rattle.lsm_version.specs.Edits.{IsEdit};
ghost use Rattle.lsm_manifest.specs.Texts.{manifest_text, record_behind};
ghost use Rattle.lsm_manifest.specs.Standing.{Stands, IsTornManifest, ReadsEither, HoldsEither};
ghost use Rattle.lsm_manifest.specs.Reading.{At_end, IsReading, ReadsToEither};
ghost use Rattle.lsm_manifest.specs.Installing.{IsApart, IsInstalled, ShowsNew, manifest_path};

/// A manifest of one edit more is the old text and the edit's record behind it.
pub fn a_manifest_grows_by_one_record()
    ensures { (edits : List Edit) (next : Edit) → manifest_text (edits ++ next ∷ []) ≡ manifest_text edits ++ record_behind edits next }
{}

/// Each image of a manifest that stands has its whole text, its file is there, and a change that
/// doesn't touch the file or its name leaves it.
pub fn a_standing_manifest_is_whole()
    ensures whole { (s : State) (path : List ℕ) (edits : List Edit) → Stands s path edits → (t : Tree) → IsImage s t
        → bytes_at t path ≡ Some (manifest_text edits) }
    ensures there { (s : State) (path : List ℕ) (edits : List Edit) → Stands s path edits → no_file path s ≡ None }
    ensures untouched { (s : State) (path : List ℕ) (edits : List Edit) (c : Change) → (stands : Stands s path edits)
        → Spares path stands.id c → Stands (after s c) path edits }
{}

/// Each image of a manifest behind which a part of the next edit's record stands has the edits, or
/// the edits and the new one.
pub fn an_image_has_the_edits()
    ensures { (s : State) (path : List ℕ) (edits : List Edit) (next : Edit) → IsTornManifest s path edits next
        → (t : Tree) → IsImage s t → HoldsEither path edits next s t }
{}

/// A manifest of another number is apart from the files that an installing writes.
pub fn another_number_is_apart()
    ensures { (dir : List ℕ) (m number : ℕ) → IsTrue (is_file_number m) → IsTrue (is_file_number number) → m ≢ number
        → IsApart dir number (manifest_path dir m) }
{}

/// A manifest that stands is a file that each image has, and where it is as it was, it is whole.
pub fn a_manifest_of_before_is_whole()
    ensures { (s : State) (path : List ℕ) (edits : List Edit) → Stands s path edits
        → (old : Old) × StillHas path old s × ((t : Tree) → ShowsOld path old t → bytes_at t path ≡ Some (manifest_text edits)) }
{}

/// In each image of an installed manifest `CURRENT` names it, and it is whole.
pub fn an_installed_manifest_is_named()
    ensures { (dir : List ℕ) (number : ℕ) (edit : Edit) (s : State) (t : Tree) → IsInstalled dir number edit s
        → IsImage s t → ShowsNew dir number edit t }
{}

/// The text of a manifest reads to its edits, and what an image has while one more is appended
/// reads to the edits, or to these and the new one.
pub fn an_image_reads_to_the_edits()
    ensures whole { (edits : List Edit) → All IsEdit edits → IsReading (manifest_text edits) edits (At_end (open_end None)) }
    ensures either { (edits : List Edit) (next : Edit) (text : List ℕ) → All IsEdit edits → IsEdit next
        → ReadsEither edits next text → ReadsToEither edits next text }
{}
