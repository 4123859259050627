//! The record of all calls that changed a name, a file or what is durable, each at its value of
//! the clock. A call that changed nothing moves the clock alone and adds nothing to the record.
ghost use Rattle.std.specs.Prelude.{◌≡◌, ◌≤◌, ◌<◌, ◌+◌, ◌-◌, ◌^◌, ◌++◌, ◌∷◌, [], ℕ, OnOk, OnErr, IfOk, IsTrue, ◌↔◌, length, take, drop, min};
ghost use Rattle.std.specs.FinMap as map;
ghost use Rattle.lsm_disk.specs.Names.{all_named, renamed};
ghost use Rattle.lsm_disk.specs.State.{State, Idle, names_now};
ghost use Rattle.lsm_nametable.specs.Target.{node_of};
ghost use Rattle.lsm_changes.specs.Replay.{state_after, syncs_names, files_after, names_after, replayed, changes, Quiet};
ghost use Rattle.lsm_changes.specs.History.{appended_in, appended_by};
ghost use Rattle.lsm_changes.specs.What.{change_of};

use crate::file::push_room;
use lsm_nametable::{NameTable, Target};
use std::alloc::{AllocError, Global};
use std::marker::Model;

/// What a call changed.
#[derive(Drop)]
pub enum What {
    Create(Vec<u8>),
    MakeFolder(Vec<u8>),
    Link(Vec<u8>, usize),
    Rename(Vec<u8>, Vec<u8>),
    Unname(Vec<u8>),
    Append(usize, Vec<u8>),
    Sync(usize),
    SyncNames,
}

/// A change at its value of the clock.
#[derive(Drop)]
pub struct Step {
    at: u64,
    what: What,
}

impl Model for Step {
    ghost use Rattle.std.specs.Prelude.{ℕ};
    ghost use Rattle.std.specs.Coded.{coded×, coded_ℕ};
    ghost use Rattle.lsm_disk.specs.State.{Change};
    ghost use Rattle.lsm_disk.specs.Codes.{coded_change};

    ghost Value = { ℕ × Change };

    ghost coded = { coded× coded_ℕ coded_change };

    ghost use Rattle.lsm_changes.specs.What.{change_of};

    ghost view = { λ s. (s.at, change_of s.what) };
}

/// The changes since the disk's start, and the clock.
#[derive(Drop)]
pub struct History {
    steps: Vec<Step>,
    clock: u64,
    appended: u64,
}

impl Model for History {
    ghost use Rattle.std.specs.Prelude.{◌-◌, vec_len, vec_capacity};
    ghost use Rattle.lsm_changes.specs.History.{Shown, coded_history, filled, Rises, IsCount};

    ghost Value = { Shown };

    ghost coded = { coded_history };

    ghost view = { λ r. record { log = filled 0 r.steps.items r.clock; room = vec_capacity r.steps - vec_len r.steps } };

    ghost invariant = { λ r. Rises 0 r.steps.items r.clock × IsCount r.appended (filled 0 r.steps.items r.clock) };
}

/// How many bytes a change appends.
fn appended_by(what: &What) -> u64
    ensures { result ≡ appended_by (change_of what.now) }
{
    match what {
        What::Append(_, bytes) => bytes.len() as u64,
        _ => 0,
    }
}

impl Step {
    fn is_names_sync(&self) -> bool
        ensures { result ≡ syncs_names self.now.1 }
    {
        matches!(&self.what, What::SyncNames)
    }

    /// Whether it is an operation on names.
    fn is_naming(&self) -> bool {
        match &self.what {
            What::Append(_, _) | What::Sync(_) | What::SyncNames => false,
            What::Create(_)
            | What::MakeFolder(_)
            | What::Link(_, _)
            | What::Rename(_, _)
            | What::Unname(_) => true,
        }
    }

    /// How many files were made, after this change.
    fn files_after(&self, files: usize) -> Result<usize, AllocError>
        ensures { IfOk result (λ n. n ≡ files_after self.now.1 files) }
    {
        match &self.what {
            What::Create(_) => files.checked_add(1).ok_or(AllocError),
            _ => Ok(files),
        }
    }

    /// The names after this change, where so many files were made before.
    fn apply(&self, alloc: Global, names: NameTable, files: usize) -> Result<NameTable, AllocError>
        ensures { IfOk result (λ t. t ≡ names_after self.now.1 files names) }
    {
        match &self.what {
            What::Create(path) => with_name(alloc, names, path.as_slice(), Target::File(files)),
            What::MakeFolder(path) => with_name(alloc, names, path.as_slice(), Target::Folder),
            What::Link(to, id) => with_name(alloc, names, to.as_slice(), Target::File(*id)),
            What::Rename(from, to) => with_rename(alloc, names, from.as_slice(), to.as_slice()),
            What::Unname(path) => Ok(without_name(names, path.as_slice())),
            _ => Ok(names),
        }
    }
}

fn with_name(
    alloc: Global,
    names: NameTable,
    path: &[u8],
    target: Target,
) -> Result<NameTable, AllocError>
    ensures { IfOk result (λ t. t ≡ map.insert names path.now (node_of target)) }
{
    let mut names = names;
    let key = Vec::from_slice(alloc, path)?;
    names.insert(key, target)?;
    Ok(names)
}

fn without_name(names: NameTable, path: &[u8]) -> NameTable
    ensures { result ≡ map.remove names path.now }
{
    let mut names = names;
    let _ = names.take(path);
    names
}

fn with_rename(
    alloc: Global,
    names: NameTable,
    from: &[u8],
    to: &[u8],
) -> Result<NameTable, AllocError>
    ensures { IfOk result (λ t. t ≡ renamed from.now to.now (map.get names from.now) names) }
{
    match names.get(from) {
        None => Ok(names),
        Some(Target::Folder) => names.with_moved(alloc, from, to),
        Some(Target::File(id)) => with_name(alloc, without_name(names, from), to, Target::File(id)),
    }
}

/// The names after the first so many steps.
fn replayed_names(
    alloc: Global,
    steps: &[Step],
    count: usize,
    names: NameTable,
    files: usize,
) -> Result<NameTable, AllocError>
    requires { count ≤ length steps.now }
    ensures { IfOk result (λ t. t ≡ replayed (changes (take count steps.now)) files names) }
{
    let mut now = names;
    let mut made = files;
    for at in 0..count {
        let step = &steps[at];
        now = step.apply(alloc, now, made)?;
        made = step.files_after(made)?;
    }
    Ok(now)
}

/// How many of the steps a crash keeps, by the number, which is that of the last operations on
/// names that are left out: none that comes before a sync of names is.
fn kept_steps(steps: &[Step], pick: u64) -> usize
    ensures within { result ≤ length steps.now }
    ensures quiet { Quiet (drop result (changes steps.now)) }
{
    let mut count = steps.len();
    let mut left = pick;
    for _turn in 0..steps.len() {
        if left == 0 {
            return count;
        }
        if count == 0 {
            return count;
        }
        let step = &steps[count - 1];
        if step.is_names_sync() {
            return count;
        }
        if step.is_naming() {
            left -= 1;
        }
        count -= 1;
    }
    count
}

/// How many operations on names stand behind the last sync of names.
fn pending_names(steps: &[Step]) -> u64 {
    let mut pending = 0u64;
    for step in steps.iter().rev() {
        if step.is_names_sync() {
            return pending;
        }
        if step.is_naming() {
            pending = pending.saturating_add(1);
        }
    }
    pending
}

impl History {
    pub fn new(alloc: Global) -> History
        ensures { result.log ≡ [] }
    {
        History {
            steps: Vec::new(alloc),
            clock: 0,
            appended: 0,
        }
    }

    /// Whether the clock stands at its last value, 2^64 - 1.
    pub fn is_full(&self) -> bool
        ensures { IsTrue result ↔ (2 ^ 64 - 1 ≤ length self.now.log) }
    {
        self.clock == u64::MAX
    }

    /// How many bytes were appended so far, at most 2^64 - 1.
    pub fn appended(&self) -> u64
        ensures { result ≡ min (appended_in self.now.log) (2 ^ 64 - 1) }
    {
        self.appended
    }

    /// Takes room for so many changes.
    pub fn reserve(&mut self, room: usize) -> Result<(), AllocError>
        ensures log { self.new.log ≡ self.old.log }
        ensures room { OnOk result (room ≤ self.new.room) }
        ensures never_less { self.old.room ≤ self.new.room }
    {
        self.steps.reserve(room)
    }

    /// Adds a change in room that was taken.
    pub fn push(&mut self, what: What)
        requires clock { length self.old.log < 2 ^ 64 - 1 }
        requires room { 1 ≤ self.old.room }
        ensures log { self.new.log ≡ self.old.log ++ change_of what ∷ [] }
        ensures room { self.old.room ≤ self.new.room + 1 }
    {
        let at = self.clock;
        self.appended = self.appended.saturating_add(appended_by(&what));
        push_room(&mut self.steps, Step { at, what });
        self.clock += 1;
    }

    /// Moves the clock alone.
    pub fn idle(&mut self)
        requires { length self.old.log < 2 ^ 64 - 1 }
        ensures log { self.new.log ≡ self.old.log ++ Idle ∷ [] }
        ensures room { self.new.room ≡ self.old.room }
    {
        self.clock += 1;
    }

    /// How many cuts the names have: one for each operation on names that no sync of names has
    /// made sure, and one.
    pub fn cuts(&self) -> u64
        ensures { 0 < result }
    {
        pending_names(&self.steps).saturating_add(1)
    }

    /// The names that a crash leaves, by the number: those after some of the operations that are
    /// pending, where `first` are the names and `files` the number of files at the start.
    pub fn crashed_names(
        &self,
        alloc: Global,
        first: &NameTable,
        files: usize,
        pick: u64,
    ) -> Result<NameTable, AllocError>
        ensures { (start : State) → first.now ≡ names_now start → files ≡ length start.files
            → IfOk result (λ names. (kept : ℕ) × (names ≡ all_named (take kept (state_after start self.now.log).pending)
            (state_after start self.now.log).durable)) }
    {
        let count = kept_steps(&self.steps, pick);
        let names = first.copy()?;
        replayed_names(alloc, &self.steps, count, names, files)
    }
}
