//! Laws of the definitions that contracts cite. The functions do nothing: their contracts are the laws.
ghost use Rattle.std.specs.Prelude.{◌≡◌, ◌↔◌, ℕ, List, Contains};
ghost use Rattle.std.specs.List.Sorted.{IsStrictlySortedBy};
ghost use Rattle.lsm_version.specs.declared.tables.Place.{Place};
ghost use Rattle.lsm_version.specs.declared.edits.Edit.{Edit};
ghost use Rattle.lsm_version.specs.EditText.{edit_text};
ghost use Rattle.lsm_version.specs.Edits.{IsEdit, IsEditText};
ghost use Rattle.lsm_version.specs.Levels.{Tables};
ghost use Rattle.lsm_version.specs.Orders.{AreLevels, Stands, place_cmp, places_of, search_order};

/// What was written is an edit's text, so a reading of it gives the edit and never a refusal.
pub fn written_edits_are_texts()
    ensures { (edit : Edit) → IsEdit edit → IsEditText (edit_text edit) edit }
{}

/// A text is that of one edit, so a reading of it has one answer.
#[tactic(auto, using(crate::proofs::Texts::edit_once))]
pub fn a_text_is_of_one_edit()
    ensures { (text : List ℕ) (edit other : Edit) → IsEditText text edit → IsEditText text other → edit ≡ other }
{}

/// A version's places ascend, so none of them comes twice.
#[tactic(auto, using(crate::proofs::PlaceOrders::places_ascend))]
pub fn places_ascend()
    ensures { (tables : Tables) → IsStrictlySortedBy place_cmp (places_of tables) }
{}

/// A walk over a version's places misses no table and makes none up.
pub fn places_are_all()
    ensures { (tables : Tables) → AreLevels tables → (place : Place) → Contains (places_of tables) place ↔ Stands tables place }
{}

/// A search looks into every table, and into none that isn't there.
pub fn the_search_finds_all()
    ensures { (tables : Tables) → AreLevels tables → (place : Place) → Contains (search_order tables) place ↔ Stands tables place }
{}
