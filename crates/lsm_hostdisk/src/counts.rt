//! The counts of a disk, and answers that are counted.
ghost use Rattle.std.specs.Prelude.{◌≡◌, ◌≤◌};
ghost use Rattle.lsm_io.specs.Causes.{Rose};
ghost use Rattle.lsm_disk.specs.Answers.{HasCause, HasRisen, TakesNoMemory};
ghost use Rattle.lsm_hostdisk.specs.Told.{counts_seen};

use lsm_disk::DiskError;

/// How many faults and refusals a disk answered. Neither passes its last value.
#[derive(Drop)]
pub struct Counts {
    pub(crate) faults: u64,
    pub(crate) refusals: u64,
}

impl Counts {
    pub(crate) fn new() -> Counts {
        Counts {
            faults: 0,
            refusals: 0,
        }
    }

    /// One fault more.
    pub(crate) fn count_fault(&mut self)
        ensures rose { Rose self.old.faults self.new.faults }
        ensures later { self.old.faults ≤ self.new.faults }
        ensures refusals { self.new.refusals ≡ self.old.refusals }
    {
        self.faults = self.faults.saturating_add(1);
    }

    fn count_refusal(&mut self)
        ensures rose { Rose self.old.refusals self.new.refusals }
        ensures later { self.old.refusals ≤ self.new.refusals }
        ensures faults { self.new.faults ≡ self.old.faults }
    {
        self.refusals = self.refusals.saturating_add(1);
    }

    fn count(&mut self, error: DiskError)
        ensures risen { HasRisen (counts_seen self.old) (counts_seen self.new) error }
        ensures faults { self.old.faults ≤ self.new.faults }
        ensures refusals { self.old.refusals ≤ self.new.refusals }
    {
        match error {
            DiskError::Fault => self.count_fault(),
            DiskError::NoMemory => {}
            DiskError::NotThere => self.count_refusal(),
            DiskError::Exists => self.count_refusal(),
            DiskError::NoLinks => self.count_refusal(),
            DiskError::NotEmpty => self.count_refusal(),
            DiskError::Short { found: _ } => self.count_refusal(),
        }
    }

    /// The same answer, counted.
    pub(crate) fn answer<T>(&mut self, given: Result<T, DiskError>) -> Result<T, DiskError>
        ensures same { result ≡ given }
        ensures cause { HasCause (counts_seen self.old) (counts_seen self.new) result }
    {
        if let Err(error) = &given {
            self.count(*error);
        }
        given
    }
}

/// Want of memory is a fault at a call that has no answer for it.
pub(crate) fn without_memory<T>(given: Result<T, DiskError>) -> Result<T, DiskError>
    ensures { TakesNoMemory result }
{
    match given {
        Ok(value) => Ok(value),
        Err(DiskError::NoMemory) => Err(DiskError::Fault),
        Err(error) => Err(error),
    }
}
