//! Roots that can be made, and those that can't.

use crate::claims::sure;
use crate::probe::Probe;
use lsm_disk::DiskError;
use std::fs;

fn is_refused(rt: HostRuntime, root: &str) -> bool {
    match Probe::new(rt, root) {
        Ok(_) => false,
        Err(error) => error == DiskError::Fault,
    }
}

fn is_made_once(rt: HostRuntime) -> Result<bool, DiskError> {
    let _ = fs::remove_dir_all(&rt, "made");
    drop(Probe::new(rt, "made/")?);
    drop(Probe::new(rt, "./made")?);
    Ok(fs::metadata(&rt, "made").is_ok())
}

fn are_refused(rt: HostRuntime) -> Result<bool, DiskError> {
    let is_file = fs::write(&rt, "plain", "text").is_ok();
    let is_over_a_file = is_refused(rt, "plain/root");
    Ok(is_file && is_over_a_file && is_refused(rt, "plain") && is_refused(rt, ""))
}

#[test]
fn a_root_is_made_once(rt: HostRuntime) {
    sure(&rt, is_made_once(rt));
}

#[test]
fn a_root_that_cant_be_made_is_a_fault(rt: HostRuntime) {
    sure(&rt, are_refused(rt));
}
