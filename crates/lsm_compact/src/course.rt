//! The course of a compaction, from its begin to its edit. The functions do nothing: their contracts are laws of its calls.
ghost use Rattle.std.specs.Prelude.{◌≡◌, ℕ, List, Option, Some, None};
ghost use Rattle.lsm_rows.specs.declared.rows.Row.{Row};
ghost use Rattle.lsm_version.specs.declared.choices.Choice.{Choice};
ghost use Rattle.lsm_version.specs.declared.edits.Edit.{Edit};
ghost use Rattle.lsm_version.specs.Levels.{Tables};
ghost use Rattle.lsm_compact.specs.declared.compaction.Compaction.{Compaction};
ghost use Rattle.lsm_compact.specs.declared.port.PortFault.{PortFault};
ghost use Rattle.lsm_compact.specs.Closed.{IsClosed};
ghost use Rattle.lsm_compact.specs.Compacting.{HasEnded, HasMoved, IsNew, IsSoundCompaction};
ghost use Rattle.lsm_compact.specs.Course.{HasMade, IsUnderWay};
ghost use Rattle.lsm_compact.specs.Orderly.{AreListed, IsOrderly};
ghost use Rattle.lsm_compact.specs.Ports.{IsKept};

use crate::port::TablePort;

/// A new compaction is under way, from the moment that its first step is asked for.
pub fn new_compactions_are_under_way<P: TablePort>()
    ensures { (port : P) (tables : Tables) (choice : Choice) (compaction : Compaction) → IsNew tables choice compaction
        → IsUnderWay P.went P.told port port tables choice compaction }
{}

/// A step leaves it under way, also one that was refused.
pub fn steps_keep_compactions_under_way<P: TablePort>()
    ensures { (start before now : P) (tables : Tables) (choice : Choice) (old new : Compaction) (fault : Option PortFault)
        (count : ℕ) → IsUnderWay P.went P.told start before tables choice old → IsKept P.told P.faults before now fault
        → HasMoved P.went P.told before now old new fault count → IsSoundCompaction new
        → IsUnderWay P.went P.told start now tables choice new }
{}

/// The edit that the last step gives is that of the inputs' rows: of each user key the newest is written, unless it is a
/// delete under which nothing is hidden. All its outputs' files are whole and sealed.
pub fn ended_compactions_have_made_their_edit<P: TablePort>()
    ensures { (start before now : P) (tables : Tables) (rows : ℕ → List Row) (choice : Choice) (old new : Compaction)
        (edit : Edit) (count : ℕ) → P.told before ≡ Some rows → IsOrderly tables rows → AreListed tables rows
        → IsClosed tables rows choice → IsUnderWay P.went P.told start before tables choice old
        → IsKept P.told P.faults before now None → HasEnded P.went P.told before now old new edit count
        → IsSoundCompaction new → HasMade P.went start now tables rows choice edit }
{}
