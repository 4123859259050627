//! A disk of which a test sees the answers alone: no function here has a clause, so that a caller's
//! proof carries no fact about the disk.

use lsm_disk::{Disk, DiskError, Entry, Kind, Listing, View, ViewFault};
use lsm_hostdisk::{HostDisk, HostView};
use lsm_names::{FileName, Path};

/// A call of a disk. The views are one place: an open fills it, a close empties it.
#[derive(Copy, Clone)]
pub enum Call {
    MakeFolder(&'static [u8]),
    RemoveFolder(&'static [u8]),
    Create(&'static [u8]),
    Append(&'static [u8], &'static [u8]),
    Sync(&'static [u8]),
    SyncNames,
    Unlink(&'static [u8]),
    Link(&'static [u8], &'static [u8]),
    Rename(&'static [u8], &'static [u8]),
    Size(&'static [u8]),
    Kind(&'static [u8]),
    Open(&'static [u8], u64),
    ReadThree(u64),
    Close,
}

/// What it gave.
#[derive(Copy, Clone, PartialEq)]
pub enum Gave {
    Done,
    Size(u64),
    Kind(Option<Kind>),
    Bytes([u8; 3]),
    Refused(DiskError),
    Faulty,
    NoView,
}

/// A disk and at most one view.
#[derive(Drop)]
pub struct Probe {
    disk: HostDisk,
    view: Option<HostView>,
}

/// The path of this name, which is spelled as one.
pub fn path(name: &[u8]) -> Path {
    match Path::parse(name) {
        Ok(path) => path,
        Err(_) => FileName::Current.path(),
    }
}

fn done(answer: Result<(), DiskError>) -> Gave {
    match answer {
        Ok(()) => Gave::Done,
        Err(refused) => Gave::Refused(refused),
    }
}

impl Probe {
    /// A disk under this root.
    pub fn new(rt: HostRuntime, root: &str) -> Result<Probe, DiskError> {
        Ok(Probe {
            disk: HostDisk::new(rt, rt.alloc(), root)?,
            view: None,
        })
    }

    /// Does a call.
    pub fn call(&mut self, call: Call) -> Gave {
        match call {
            Call::MakeFolder(name) => done(self.make_folder(name)),
            Call::RemoveFolder(name) => done(self.remove_folder(name)),
            Call::Create(name) => done(self.create(name)),
            Call::Append(name, bytes) => done(self.append(name, bytes)),
            Call::Sync(name) => done(self.sync(name)),
            Call::SyncNames => done(self.sync_names()),
            Call::Unlink(name) => done(self.unlink(name)),
            Call::Link(from, to) => done(self.link(from, to)),
            Call::Rename(from, to) => done(self.rename(from, to)),
            Call::Size(name) => self.size(name),
            Call::Kind(name) => self.kind(name),
            Call::Open(name, len) => done(self.open(name, len)),
            Call::ReadThree(place) => self.read_three(place),
            Call::Close => self.close(),
        }
    }

    fn make_folder(&mut self, name: &[u8]) -> Result<(), DiskError> {
        self.disk.make_folder(&path(name))
    }

    fn remove_folder(&mut self, name: &[u8]) -> Result<(), DiskError> {
        self.disk.remove_folder(&path(name))
    }

    fn create(&mut self, name: &[u8]) -> Result<(), DiskError> {
        self.disk.create(&path(name))
    }

    fn append(&mut self, name: &[u8], bytes: &[u8]) -> Result<(), DiskError> {
        self.disk.append(&path(name), bytes)
    }

    fn sync(&mut self, name: &[u8]) -> Result<(), DiskError> {
        self.disk.sync(&path(name))
    }

    fn sync_names(&mut self) -> Result<(), DiskError> {
        self.disk.sync_names()
    }

    fn unlink(&mut self, name: &[u8]) -> Result<(), DiskError> {
        self.disk.unlink(&path(name))
    }

    fn link(&mut self, from: &[u8], to: &[u8]) -> Result<(), DiskError> {
        self.disk.link(&path(from), &path(to))
    }

    fn rename(&mut self, from: &[u8], to: &[u8]) -> Result<(), DiskError> {
        self.disk.rename(&path(from), &path(to))
    }

    fn size(&mut self, name: &[u8]) -> Gave {
        match self.disk.size(&path(name)) {
            Ok(size) => Gave::Size(size),
            Err(refused) => Gave::Refused(refused),
        }
    }

    fn kind(&mut self, name: &[u8]) -> Gave {
        match self.disk.kind(&path(name)) {
            Ok(kind) => Gave::Kind(kind),
            Err(refused) => Gave::Refused(refused),
        }
    }

    /// What stands in a folder.
    pub fn list(&mut self, name: &[u8]) -> Result<Listing, DiskError> {
        self.disk.list(&path(name))
    }

    fn open(&mut self, name: &[u8], len: u64) -> Result<(), DiskError> {
        self.view = Some(self.disk.open(&path(name), len)?);
        Ok(())
    }

    fn read_three(&mut self, place: u64) -> Gave {
        match &mut self.view {
            Some(view) => three_of(view, place),
            None => Gave::NoView,
        }
    }

    fn close(&mut self) -> Gave {
        match self.view.take() {
            Some(view) => {
                self.disk.close(view);
                Gave::Done
            }
            None => Gave::NoView,
        }
    }
}

fn three_of(view: &mut HostView, place: u64) -> Gave {
    if view.len() < 3 || view.len() - 3 < place {
        return Gave::NoView;
    }
    let mut into = [0u8; 3];
    match view.read_at(place, &mut into) {
        Ok(()) => Gave::Bytes(into),
        Err(ViewFault) => Gave::Faulty,
    }
}

/// An entry of this name.
pub fn entry(name: &[u8], kind: Kind) -> Entry {
    Entry {
        name: path(name),
        kind,
    }
}
