//! Laws of what is picked. The functions do nothing: their contracts are the laws.
ghost use Rattle.std.specs.Prelude.{◌≡◌, ◌<◌, Some, Ok};
ghost use Rattle.lsm_version.specs.declared.choices.Choice.{Choice};
ghost use Rattle.lsm_version.specs.declared.edits.Edit.{Edit};
ghost use Rattle.lsm_version.specs.Levels.{Tables};
ghost use Rattle.lsm_version.specs.Versions.{applied};
ghost use Rattle.lsm_pick.specs.Picked.{picked};
ghost use Rattle.lsm_pick.specs.Inputs.{IsSound};
ghost use Rattle.lsm_pick.specs.Weight.{HaveBytes, IsCompaction, weight};

/// A compaction reads tables of the version alone, at least one of them, and writes to a level from 1 to 6.
#[tactic(auto, using(crate::proofs::Sound::picked_is_sound))]
pub fn picked_inputs_stand()
    ensures { (tables : Tables) (choice : Choice) → picked tables ≡ Some choice → IsSound tables choice }
{}

/// Each compaction of what is picked lowers the weight, so a line of them ends.
#[tactic(auto, using(crate::proofs::Lowered::weight_falls))]
pub fn compactions_lower_the_weight()
    ensures { (tables after : Tables) (choice : Choice) (edit : Edit) → picked tables ≡ Some choice → HaveBytes tables
        → IsCompaction tables choice edit → applied tables edit ≡ Ok after → weight after < weight tables }
{}
