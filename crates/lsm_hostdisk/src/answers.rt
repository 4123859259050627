//! What an error of the host is to a caller of the disk, call by call. What isn't one of a call's
//! answers is a fault.

use lsm_disk::DiskError;
use std::io;
use std::io::ErrorKind;

/// The host's numbers of the errors that mean that it gives this file no second name there: not
/// allowed, another device, too many names, and no such call.
const NO_LINKS: [i32; 5] = [1, 18, 31, 38, 95];

/// The answer of a call whose name has to be there.
pub(crate) fn of_a_name<T>(given: io::Result<T>) -> Result<T, DiskError> {
    match given {
        Ok(value) => Ok(value),
        Err(error) => Err(missing(&error)),
    }
}

/// The answer of a call that makes a name.
pub(crate) fn of_a_new_name<T>(given: io::Result<T>) -> Result<T, DiskError> {
    match given {
        Ok(value) => Ok(value),
        Err(error) => Err(missing_or_taken(&error)),
    }
}

/// The answer of a call that gives a file a second name.
pub(crate) fn of_a_link(given: io::Result<()>) -> Result<(), DiskError> {
    match given {
        Ok(()) => Ok(()),
        Err(error) if means_no_links(&error) => Err(DiskError::NoLinks),
        Err(error) => Err(missing_or_taken(&error)),
    }
}

/// The answer of a rename. A folder in the new name's place is a taken name.
pub(crate) fn of_a_rename(given: io::Result<()>) -> Result<(), DiskError> {
    match given {
        Ok(()) => Ok(()),
        Err(error) => Err(match error.kind() {
            ErrorKind::IsADirectory => DiskError::Exists,
            ErrorKind::DirectoryNotEmpty => DiskError::Exists,
            _ => missing_or_taken(&error),
        }),
    }
}

/// The answer of a call that takes a folder away. Some hosts say of a folder with a name inside
/// that it is there.
pub(crate) fn of_a_removal(given: io::Result<()>) -> Result<(), DiskError> {
    match given {
        Ok(()) => Ok(()),
        Err(error) => Err(match error.kind() {
            ErrorKind::DirectoryNotEmpty => DiskError::NotEmpty,
            ErrorKind::AlreadyExists => DiskError::NotEmpty,
            _ => missing(&error),
        }),
    }
}

/// The answer of a call that the host may only do: each error is a fault.
pub(crate) fn or_fault<T>(given: io::Result<T>) -> Result<T, DiskError> {
    match given {
        Ok(value) => Ok(value),
        Err(_) => Err(DiskError::Fault),
    }
}

/// Whether the host says that nothing stands under the name.
pub(crate) fn means_nothing_there(error: &io::Error) -> bool {
    match error.kind() {
        ErrorKind::NotFound => true,
        ErrorKind::NotADirectory => true,
        _ => false,
    }
}

/// Whether the call was interrupted, and is to be made again.
pub(crate) fn is_interrupted(error: &io::Error) -> bool {
    error.kind() == ErrorKind::Interrupted
}

fn missing(error: &io::Error) -> DiskError {
    match error.kind() {
        ErrorKind::NotFound => DiskError::NotThere,
        ErrorKind::NotADirectory => DiskError::NotThere,
        ErrorKind::IsADirectory => DiskError::NotThere,
        _ => DiskError::Fault,
    }
}

fn missing_or_taken(error: &io::Error) -> DiskError {
    match error.kind() {
        ErrorKind::AlreadyExists => DiskError::Exists,
        _ => missing(error),
    }
}

fn means_no_links(error: &io::Error) -> bool {
    match error.raw_os_error() {
        Some(code) => NO_LINKS.contains(&code),
        None => false,
    }
}
