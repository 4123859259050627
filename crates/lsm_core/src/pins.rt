//! Pins: which files a store may not remove, and how far the checkpoints came that copy them.
ghost use Rattle.std.specs.Prelude.{◌≡◌, ◌==◌, find};
ghost use Rattle.std.specs.List.{list_any};
ghost use Rattle.std.specs.Option.{option_map};
ghost use Rattle.lsm_model.specs.Causes.{is_none, same_name};
ghost use Rattle.lsm_refine.specs.Calls.{is_own_kept, lists_name};
ghost use Rattle.lsm_refine.specs.Caused.{kept_pin_of};
ghost use Rattle.lsm_core.specs.Obsolete.{are_holding};

use lsm_model::{CutFile, CutFiles};
use lsm_names::{FileName, Folder};
use std::marker::Model;

/// A checkpoint under way, as its pin keeps it.
#[derive(Drop)]
pub struct Job {
    dir: Folder,
    left: u64,
    made: bool,
    copied: u64,
}

impl Model for Job {
    ghost use Rattle.lsm_refine.specs.Kept.{Job as KeptJob};
    ghost use Rattle.lsm_refine.specs.Codes.{coded_job};

    ghost Value = { KeptJob };

    ghost coded = { coded_job };

    ghost view = { λ j. record { dir = j.dir; left = j.left; made = j.made; copied = j.copied } };
}

/// A pin with the files that it holds. Contracts see the files' names with how many of their bytes
/// are the pin's.
#[derive(Drop)]
pub struct Pin {
    number: u64,
    sequence: u64,
    manifest: u64,
    files: CutFiles,
    job: Option<Job>,
}

impl Model for Pin {
    ghost use Rattle.std.specs.Prelude.{map};
    ghost use Rattle.lsm_model.specs.Pins.{listed};
    ghost use Rattle.lsm_refine.specs.Kept.{KeptPin};
    ghost use Rattle.lsm_refine.specs.Codes.{coded_pin};

    ghost Value = { KeptPin };

    ghost coded = { coded_pin };

    ghost view = { λ p. record {
      number = p.number;
      sequence = p.sequence;
      manifest = p.manifest;
      files = map listed p.files;
      job = p.job;
    } };
}

impl Pin {
    /// The number by which it is named.
    pub fn number(&self) -> u64
        ensures { result ≡ self.now.number }
    {
        self.number
    }

    /// Whether it is its caller's own, and no checkpoint's.
    pub fn is_own(&self) -> bool
        ensures { result ≡ is_none self.now.job }
    {
        self.job.is_none()
    }

    /// Whether it holds the file of this name.
    pub fn holds(&self, name: FileName) -> bool
        ensures { result ≡ lists_name name self.now.files }
    {
        is_listed(self.files.as_slice(), name)
    }
}

// Whether two names are one.
fn is_same(left: FileName, right: FileName) -> bool
    ensures { result ≡ same_name left right }
{
    left == right
}

// Whether a file of this name is among these.
fn is_listed(files: &[CutFile], name: FileName) -> bool
    ensures { result ≡ list_any (λ file. same_name file.name name) files.now }
{
    for file in files {
        if is_same(file.name, name) {
            return true;
        }
    }
    false
}

/// The pin of this number.
pub(crate) fn pin_by(pins: &[Pin], number: u64) -> Option<&Pin>
    ensures { option_map (λ pin. pin.now) result ≡ find (λ pin. pin.number == number) pins.now }
{
    pins.iter().find(|pin| pin.number == number)
}

/// Whether one of the pins holds the file of this name.
#[tactic(auto, unfolding(crate::specs::Obsolete::are_holding))]
pub(crate) fn are_holding(pins: &[Pin], name: FileName) -> bool
    ensures { result ≡ are_holding pins.now name }
{
    for pin in pins {
        if pin.holds(name) {
            return true;
        }
    }
    false
}

/// Whether a pin of this number is there, and its caller's own.
pub(crate) fn has_own(pins: &[Pin], number: u64) -> bool
    ensures { result ≡ is_own_kept (kept_pin_of number pins.now) }
{
    match pin_by(pins, number) {
        Some(pin) => pin.is_own(),
        None => false,
    }
}
