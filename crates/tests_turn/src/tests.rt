//! The count of three threads, and of one with many passes.
use crate::counted_by_three;
use std::process::Abort;

fn sure(rt: &impl Abort, holds: bool) {
    assert!(rt; holds);
}

#[test]
fn three_threads_add(rt: HostRuntime) {
    let counted = counted_by_three(&rt, rt.alloc(), 40, 1, 2, 3);
    sure(&rt, counted == Some(46));
}

#[test]
fn a_count_goes_round(rt: HostRuntime) {
    let counted = counted_by_three(&rt, rt.alloc(), u64::MAX, 1, 0, 6);
    sure(&rt, counted == Some(6));
}
