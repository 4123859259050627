//! How a refused disk call is answered, and what halts.
ghost use Rattle.std.specs.Prelude.{◌≡◌, true, false};
ghost use Rattle.lsm_disk.specs.declared.calls.DiskCall.TheVariants as calls;
ghost use Rattle.lsm_disk.specs.declared.calls.DiskError.TheVariants as errors;
ghost use Rattle.lsm_dest.specs.FolderDests.{answer_by, halt_by, begin_answer_by, begin_halt_by, LeavesName};

use lsm_disk::{DestError, DiskCall, DiskError, DiskRefusal, Halt};
use lsm_names::Path;

pub fn refused(call: DiskCall, path: &Path, why: DiskError) -> DiskRefusal
    ensures { result ≡ record { at = record { call = call; path = path.now }; why = why } }
{
    DiskRefusal {
        at: Halt { call, path: *path },
        why,
    }
}

/// Whether memory was wanted after the temporary name was made.
pub fn leaves_name(refusal: &DiskRefusal) -> bool
    ensures leaves { result ≡ true → LeavesName refusal.now }
    ensures spares { result ≡ false → refusal.now.why ≡ errors.NoMemory → refusal.now.at.call ≡ calls.Create }
{
    match refusal.why {
        DiskError::NoMemory => match refusal.at.call {
            DiskCall::Create => false,
            _ => true,
        },
        _ => false,
    }
}

/// The answer where this disk call was refused. All but want of memory halts the destination.
pub fn refuse(halt: &mut Option<Halt>, refusal: DiskRefusal) -> DestError
    ensures answer { result ≡ answer_by refusal.at refusal.why }
    ensures halt { halt.new ≡ halt_by halt.old refusal.at refusal.why }
{
    match refusal.why {
        DiskError::NoMemory => DestError::NoMemory,
        DiskError::Fault => {
            *halt = Some(refusal.at);
            DestError::Fault
        }
        DiskError::NotThere
        | DiskError::Exists
        | DiskError::NoLinks
        | DiskError::NotEmpty
        | DiskError::Short { .. } => {
            *halt = Some(refusal.at);
            DestError::Changed {
                call: refusal.at.call,
                path: refusal.at.path,
            }
        }
    }
}

/// The answer where the folder could not be made. A taken name halts nothing.
pub fn refuse_begin(halt: &mut Option<Halt>, refusal: DiskRefusal) -> DestError
    ensures answer { result ≡ begin_answer_by refusal.at refusal.why }
    ensures halt { halt.new ≡ begin_halt_by halt.old refusal.at refusal.why }
{
    match refusal.why {
        DiskError::Exists => DestError::Exists,
        DiskError::Fault
        | DiskError::NotThere
        | DiskError::NoLinks
        | DiskError::NotEmpty
        | DiskError::Short { .. }
        | DiskError::NoMemory => refuse(halt, refusal),
    }
}
