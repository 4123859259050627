//! Answers of several lines: which backups there are, and what a folder holds.
ghost use Rattle.std.specs.Prelude.{◌≡◌, ◌++◌, map, IfOk, OnOk};
ghost use Rattle.std.specs.List.{flat_map};
ghost use Rattle.std.specs.FinMap as finite;
ghost use Rattle.std.specs.BTreeMap.{IsOrdered};
ghost use Rattle.lsm_rows.specs.Replay.{key_cmp};
ghost use Rattle.lsm_rows.specs.Pairs.{pair_of};
ghost use Rattle.ldb_script.specs.Printed.{pair_line, scan_text, line_of_info, infos_text, folder_text};

use crate::printing::{push_end, push_info, push_pair, sequence_line};
use bk_engine::BackupInfo;
use lsm_bytes::{Bytes, NoMemory};
use lsm_recover::Found;
use lsm_rows::Pairs;
use std::alloc::Global;
use std::collections::BTreeMap;

// Adds the line of each pair, in the order of the keys.
fn push_pairs(
    alloc: Global,
    text: &mut Bytes,
    values: &BTreeMap<Vec<u8>, Vec<u8>>,
) -> Result<(), NoMemory>
    ensures pairs { OnOk result (text.new ≡ text.old ++ flat_map pair_line (map pair_of values.now.entries)) }
    ensures ordered { OnOk result (IsOrdered (λ x y. key_cmp x.items y.items) values.now) }
{
    for (key, value) in values {
        push_pair(alloc, text, key.as_slice(), value.as_slice())?;
    }
    Ok(())
}

/// The answer to a scan: the line of each pair, in the order of the keys, and how many there are.
pub fn scan_text(alloc: Global, pairs: &Pairs) -> Result<Bytes, NoMemory>
    ensures { IfOk result (λ text. text ≡ scan_text (finite.entries pairs.now)) }
{
    let mut text = Bytes::new(alloc);
    push_pairs(alloc, &mut text, pairs.entries())?;
    push_end(alloc, &mut text, pairs.count())?;
    Ok(text)
}

fn push_infos(alloc: Global, text: &mut Bytes, infos: &[BackupInfo]) -> Result<(), NoMemory>
    ensures { OnOk result (text.new ≡ text.old ++ flat_map line_of_info infos.now) }
{
    for info in infos {
        push_info(alloc, text, info)?;
    }
    Ok(())
}

/// The answer to a question for the backups: the line of each, and how many there are.
pub fn list_text(alloc: Global, infos: &[BackupInfo]) -> Result<Bytes, NoMemory>
    ensures { IfOk result (λ text. text ≡ infos_text infos.now) }
{
    let mut text = Bytes::new(alloc);
    push_infos(alloc, &mut text, infos)?;
    push_end(alloc, &mut text, infos.len())?;
    Ok(text)
}

/// The answer to a question for a folder: its last sequence, the line of each pair, and how many there are.
pub fn folder_text(alloc: Global, found: &Found) -> Result<Bytes, NoMemory>
    ensures { IfOk result (λ text. text ≡ folder_text (record { sequence = found.now.sequence; contents = found.now.contents })) }
{
    let mut text = sequence_line(alloc, found.sequence)?;
    push_pairs(alloc, &mut text, found.contents.entries())?;
    push_end(alloc, &mut text, found.contents.count())?;
    Ok(text)
}
