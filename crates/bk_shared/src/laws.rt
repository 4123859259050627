//! What the definitions say of each other, for the proofs of the crates above.
ghost use Rattle.std.specs.Prelude.{◌≡◌, ◌<◌, ℕ, List, Some, map, length};
ghost use Rattle.std.specs.List.{All};
ghost use Rattle.std.specs.List.Sorted.{IsStrictlyIncreasing};
ghost use Rattle.lsm_names.specs.declared.shared_names.SharedName.{SharedName};
ghost use Rattle.lsm_names.specs.SharedNames.{IsSharedName};
ghost use Rattle.bk_meta.specs.declared.metas.Meta.{Meta};
ghost use Rattle.bk_meta.specs.Metas.{IsMeta};
ghost use Rattle.bk_shared.specs.SharedLines.{SharedLine, lines_of, all_lines, crc_in, crc_of, Agree, FirstClash, TwoChecksums};

/// Where lines clash there is one first clash, and where they agree there is none.
pub fn first_clash_is_one()
    ensures none { (lines : List SharedLine) (name : SharedName) (kept found : ℕ)
        → FirstClash lines name kept found → Agree lines → ⊥ }
    ensures one { (lines : List SharedLine) (name other : SharedName) (kept found before after : ℕ)
        → FirstClash lines name kept found → FirstClash lines other before after
        → (name ≡ other) × (kept ≡ before) × (found ≡ after) }
{}

/// A clash of metas names a file that a path of a backup can name.
pub fn clash_names_a_file()
    ensures { (metas : List Meta) (name : SharedName) (kept found : ℕ)
        → FirstClash (all_lines metas) name kept found → IsSharedName name }
{}

/// Where the lines of metas agree, each meta that names a file gives it the one checksum.
pub fn metas_agree()
    ensures { (metas : List Meta) (name : SharedName) (crc : ℕ) → Agree (all_lines metas)
        → All (λ meta. crc_in name (lines_of meta) ≡ Some crc → crc_of metas name ≡ Some crc) metas }
{}

/// A clash is one of two metas, of which the one of the lower identifier gives what was kept. And
/// where two metas give a file two checksums, the lines don't agree.
pub fn clash_is_of_two_metas()
    ensures two { (metas : List Meta) (name : SharedName) (kept found : ℕ)
        → IsStrictlyIncreasing (map (λ meta. meta.id) metas) → All IsMeta metas
        → FirstClash (all_lines metas) name kept found → TwoChecksums metas name kept found }
    ensures clash { (metas : List Meta) (name : SharedName) (kept found : ℕ)
        → TwoChecksums metas name kept found → Agree (all_lines metas) → ⊥ }
{}
