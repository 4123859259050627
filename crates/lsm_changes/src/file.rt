//! A file in memory, and the list of all files by their numbers.
ghost use Rattle.std.specs.Prelude.{◌≡◌, ◌<◌, ◌≤◌, ◌+◌, ◌-◌, ◌++◌, ◌∷◌, [], length, take, slice_get, IfOk, OnOk, OnErr, vec_len, vec_capacity};
ghost use Rattle.lsm_disk.specs.State.{new_file, longer, sure, bytes_of, in_file, file_or};
ghost use Rattle.lsm_changes.specs.Files.{is_empty, IsLeft, AreLeft};

use std::alloc::{AllocError, Global};
use std::marker::Model;

/// A file's bytes, of which the first so many were synced.
#[derive(Drop)]
pub struct MemFile {
    bytes: Vec<u8>,
    synced: usize,
}

impl Model for MemFile {
    ghost use Rattle.std.specs.Prelude.{◌≤◌, length, take, drop};
    ghost use Rattle.lsm_disk.specs.State.{FileState};
    ghost use Rattle.lsm_disk.specs.Codes.{coded_file};

    ghost Value = { FileState };

    ghost coded = { coded_file };

    ghost view = { λ f. record { synced = take f.synced f.bytes.items; unsynced = drop f.synced f.bytes.items } };

    ghost invariant = { λ f. f.synced ≤ length f.bytes.items };
}

impl MemFile {
    pub fn new(alloc: Global) -> MemFile
        ensures { result ≡ new_file }
    {
        MemFile {
            bytes: Vec::new(alloc),
            synced: 0,
        }
    }

    pub fn sync(&mut self)
        ensures { self.new ≡ sure self.old }
    {
        self.synced = self.bytes.len();
    }

    /// Whether all of its bytes were synced.
    pub fn is_synced(&self) -> bool
        ensures { result ≡ is_empty self.now.unsynced }
    {
        self.synced == self.bytes.len()
    }

    pub fn len(&self) -> u64
        ensures { result ≡ length (bytes_of self.now) }
    {
        self.bytes.len() as u64
    }

    /// A copy of its first bytes.
    pub fn front(&self, alloc: Global, len: u64) -> Result<Vec<u8>, AllocError>
        requires { len ≤ length (bytes_of self.now) }
        ensures front { IfOk result (λ bytes. bytes.items ≡ take len (bytes_of self.now)) }
        ensures count { IfOk result (λ bytes. vec_len bytes ≡ len) }
    {
        Vec::from_slice(alloc, self.bytes.as_slice().split_at(len as usize).0)
    }

    pub fn copy(&self, alloc: Global) -> Result<MemFile, AllocError>
        ensures { IfOk result (λ f. f ≡ self.now) }
    {
        let bytes = Vec::from_slice(alloc, self.bytes.as_slice())?;
        Ok(MemFile {
            bytes,
            synced: self.synced,
        })
    }

    /// How many cuts it has.
    pub fn cuts(&self) -> u64
        ensures { 0 < result }
    {
        (self.bytes.len() - self.synced) as u64 + 1
    }

    /// What a crash leaves of it, by the number.
    pub fn cut(&self, alloc: Global, pick: u64) -> Result<MemFile, AllocError>
        ensures { IfOk result (λ f. IsLeft self.now f) }
    {
        let loose = self.bytes.len() - self.synced;
        let more = pick as usize % (loose + 1);
        let bytes = Vec::from_slice(alloc, &self.bytes[..self.synced + more])?;
        let synced = bytes.len();
        Ok(MemFile { bytes, synced })
    }

    pub fn append(&mut self, bytes: &[u8]) -> Result<(), AllocError>
        ensures ok { OnOk result (self.new ≡ longer bytes.now self.old) }
        ensures err { OnErr result (self.new ≡ self.old) }
    {
        self.bytes.extend_from_slice(bytes)
    }
}

/// Appends to the file of this number.
pub fn append_at(files: &mut Vec<MemFile>, id: usize, bytes: &[u8]) -> Result<(), AllocError>
    requires { id < vec_len files.old }
    ensures ok { OnOk result (files.new.items ≡ in_file (longer bytes.now) id files.old.items) }
    ensures err { OnErr result (files.new.items ≡ files.old.items) }
{
    let file = &mut files[id];
    file.append(bytes)
}

/// Syncs the file of this number.
pub fn sync_at(files: &mut Vec<MemFile>, id: usize)
    requires { id < vec_len files.old }
    ensures { files.new.items ≡ in_file sure id files.old.items }
{
    let file = &mut files[id];
    file.sync();
}

pub fn is_synced_at(files: &[MemFile], id: usize) -> bool
    requires { id < length files.now }
    ensures { result ≡ is_empty (file_or (slice_get files.now id)).unsynced }
{
    files[id].is_synced()
}

pub fn len_at(files: &[MemFile], id: usize) -> u64
    requires { id < length files.now }
    ensures { result ≡ length (bytes_of (file_or (slice_get files.now id))) }
{
    files[id].len()
}

/// A copy of the first bytes of the file of this number.
pub fn front_at(
    alloc: Global,
    files: &[MemFile],
    id: usize,
    len: u64,
) -> Result<Vec<u8>, AllocError>
    requires file { id < length files.now }
    requires long { len ≤ length (bytes_of (file_or (slice_get files.now id))) }
    ensures front { IfOk result (λ bytes. bytes.items ≡ take len (bytes_of (file_or (slice_get files.now id)))) }
    ensures count { IfOk result (λ bytes. vec_len bytes ≡ len) }
{
    files[id].front(alloc, len)
}

/// The same files.
pub fn copy_all(alloc: Global, files: &[MemFile]) -> Result<Vec<MemFile>, AllocError>
    ensures { IfOk result (λ out. out.items ≡ files.now) }
{
    let mut out = Vec::new(alloc);
    for file in files {
        out.push(file.copy(alloc)?)?;
    }
    Ok(out)
}

/// What a crash leaves of them. The number's digits pick each file's cut, so that each way to
/// cut them all is some number.
pub fn cut_all(alloc: Global, files: &[MemFile], pick: u64) -> Result<Vec<MemFile>, AllocError>
    ensures { IfOk result (λ out. AreLeft files.now out.items) }
{
    let mut out = Vec::new(alloc);
    let mut left = pick;
    for file in files {
        out.push(file.cut(alloc, left)?)?;
        left /= file.cuts();
    }
    Ok(out)
}

/// Pushes into room that was reserved.
pub fn push_room<T: Drop>(items: &mut Vec<T>, item: T)
    requires { vec_len items.old + 1 ≤ vec_capacity items.old }
    ensures items { items.new.items ≡ items.old.items ++ item ∷ [] }
    ensures room { vec_capacity items.old - vec_len items.old ≤ vec_capacity items.new - vec_len items.new + 1 }
{
    let _ = items.push(item);
}
