//! What a plain store looks up in its lists.
ghost use Rattle.std.specs.Prelude.{◌≡◌, ◌-◌, ◌<◌, ◌++◌, ◌∷◌, [], false, OnOk, OnErr, List, length, map, take, drop, sum_by, IfSome, IfNone};
ghost use Rattle.std.specs.Option.{option_map};
ghost use Rattle.std.specs.Str.{bytes_eq};
ghost use Rattle.lsm_rows.specs.declared.operations.Op.{Op};
ghost use Rattle.lsm_model.specs.States.{pin_of, without_pin, folder_of, built_by, op_bytes, bytes_of};
ghost use Rattle.lsm_model.specs.Causes.{is_dir, is_own, is_job, builds};
ghost use Rattle.lsm_model.specs.Plain.{plain_folder, with_plain, IsJobOf};
ghost use Rattle.std.proofs.Math.ListN.{set};

use crate::{Holder, Pin};
use lsm_bytes::NoMemory;
use lsm_names::Folder;
use lsm_rows::{Batch, Op};

/// A folder beside the store's own: a checkpoint, or one that was begun for a restore.
#[derive(Clone, Copy, Drop)]
pub struct PlainFolder {
    pub name: Folder,
    /// It has the first so many accepted batches. None where it isn't finished.
    pub batches: Option<u64>,
}

/// Whether these are one name.
pub fn same_name(one: &Folder, other: &Folder) -> bool
    ensures { result ≡ bytes_eq one.now other.now }
{
    one.as_bytes() == other.as_bytes()
}

/// The live pin of a number.
pub fn find_pin(pins: &[Pin], number: u64) -> Option<&Pin>
    ensures { option_map (λ pin. pin.now) result ≡ pin_of number pins.now }
{
    for pin in pins {
        if pin.number == number {
            return Some(pin);
        }
    }
    None
}

/// Whether the pin of a number is there, and its caller's own.
pub fn has_own(pins: &[Pin], number: u64) -> bool
    ensures { result ≡ is_own (pin_of number pins.now) }
{
    match find_pin(pins, number) {
        Some(pin) => match pin.holder {
            Holder::Caller => true,
            Holder::Checkpoint { .. } => false,
        },
        None => false,
    }
}

/// A checkpoint under way, as its pin says it.
#[derive(Clone, Copy, Drop)]
pub struct Job {
    /// The folder that it builds.
    pub dir: Folder,
    /// How many files aren't whole there yet.
    pub left: u64,
    /// How many batches it has.
    pub batches: u64,
}

/// The checkpoint whose pin has the number.
pub fn find_job(pins: &[Pin], number: u64) -> Option<Job>
    ensures found { IfSome result (λ job. IsJobOf job (pin_of number pins.now)) }
    ensures none { IfNone result (is_job (pin_of number pins.now) ≡ false) }
{
    match find_pin(pins, number) {
        Some(pin) => match pin.holder {
            Holder::Caller => None,
            Holder::Checkpoint { dir, left } => Some(Job {
                dir,
                left,
                batches: pin.batches,
            }),
        },
        None => None,
    }
}

/// Ends a pin. It takes no memory.
pub fn drop_pin(pins: &mut Vec<Pin>, number: u64)
    ensures { pins.new.items ≡ without_pin number pins.old.items }
{
    pins.retain(move |pin| pin.number != number);
}

// Whether the holder is a checkpoint that builds this folder.
fn builds_it(holder: Holder, dir: &Folder) -> bool
    ensures { result ≡ is_dir dir.now (built_by holder) }
{
    match holder {
        Holder::Caller => false,
        Holder::Checkpoint { dir: other, .. } => same_name(&other, dir),
    }
}

/// Whether a checkpoint of these pins builds the folder.
pub fn is_built(pins: &[Pin], dir: &Folder) -> bool
    ensures { result ≡ builds dir.now pins.now }
{
    for pin in pins {
        if builds_it(pin.holder, dir) {
            return true;
        }
    }
    false
}

/// The folder of a name.
pub fn find_folder<'a>(folders: &'a [PlainFolder], name: &Folder) -> Option<&'a PlainFolder>
    ensures { (accepted : List (List Op)) → option_map (λ folder. plain_folder accepted folder.now) result
        ≡ folder_of name.now (map (plain_folder accepted) folders.now) }
{
    for folder in folders {
        if same_name(&folder.name, name) {
            return Some(folder);
        }
    }
    None
}

// Where the folder of a name stands in the list.
fn place_of(folders: &[PlainFolder], name: &Folder) -> Option<usize>
    ensures found { IfSome result (λ at. (at < length folders.now)
        × ((new : PlainFolder) → new.name ≡ name.now → with_plain new folders.now ≡ set folders.now at new)) }
    ensures none { IfNone result ((new : PlainFolder) → new.name ≡ name.now → with_plain new folders.now ≡ folders.now ++ new ∷ []) }
{
    for (at, folder) in folders.iter().enumerate() {
        if same_name(&folder.name, name) {
            return Some(at);
        }
    }
    None
}

/// Puts a folder in the place of the one of its name, or at the end where there is none.
pub fn put_folder(folders: &mut Vec<PlainFolder>, folder: PlainFolder) -> Result<(), NoMemory>
    ensures ok { OnOk result (folders.new.items ≡ with_plain folder folders.old.items) }
    ensures err { OnErr result (folders.new.items ≡ folders.old.items) }
{
    match place_of(folders, &folder.name) {
        Some(at) => {
            folders[at] = folder;
            Ok(())
        }
        None => {
            folders.push(folder)?;
            Ok(())
        }
    }
}

/// The first so many batches, or all where there are fewer.
pub fn front(batches: &[Batch], count: u64) -> &[Batch]
    ensures { result.now ≡ take count batches.now }
{
    if count < batches.len() as u64 {
        batches.split_at(count as usize).0
    } else {
        batches
    }
}

/// The batches behind them.
pub fn behind(batches: &[Batch], count: u64) -> &[Batch]
    ensures { result.now ≡ drop count batches.now }
{
    if count < batches.len() as u64 {
        batches.split_at(count as usize).1
    } else {
        &[]
    }
}

/// What is left of a number after the operations of batches, or 0.
pub fn less_operations(number: u64, batches: &[Batch]) -> u64
    ensures { result ≡ number - sum_by length batches.now }
{
    let mut left = number;
    for batch in batches {
        left = left.saturating_sub(batch.len() as u64);
    }
    left
}

// What is left of a number after what an operation's row counts in memory, or 0.
fn less_op(number: usize, op: &Op) -> usize
    ensures { result ≡ number - op_bytes op.now }
{
    match op {
        Op::Put { key, value } => number
            .saturating_sub(key.len())
            .saturating_sub(value.len())
            .saturating_sub(8),
        Op::Delete { key } => number.saturating_sub(key.len()).saturating_sub(8),
    }
}

// What is left of a number after the rows of operations, or 0.
fn less_ops(number: usize, ops: &[Op]) -> usize
    ensures { result ≡ number - sum_by op_bytes ops.now }
{
    let mut left = number;
    for op in ops {
        left = less_op(left, op);
    }
    left
}

/// What is left of a number after the bytes of the rows of batches in memory, or 0.
pub fn less_rows(number: usize, batches: &[Batch]) -> usize
    ensures { result ≡ number - bytes_of batches.now }
{
    let mut left = number;
    for batch in batches {
        left = less_ops(left, batch.ops());
    }
    left
}
