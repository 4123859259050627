//! The outside behind traits: where bytes come from and go to, the time, the names of sessions, and who may stop or
//! watch a call that runs. A trait that can fail counts its faults, so that an answer of failure always has its cause.
//! Objects in memory tell their contents; the adapters over std tell nothing.
#![tactic(auto)]

mod adapters;
mod clocks;
mod counts;
mod failed;
mod gates;
mod host;
mod laws;
mod sessions;
mod sinks;
mod sources;
mod stops;

pub use adapters::{StdSink, StdSource};
pub use clocks::{Clock, ListClock};
pub use failed::Failed;
pub use gates::{Gate, OpenGate, Point};
pub use host::{HostClock, HostSessions};
pub use laws::host_names_differ;
pub use sessions::{ListSessions, Sessions};
pub use sinks::{MemSink, Sink};
pub use sources::{MemSource, Source};
pub use stops::{NoStop, Stop, StopAt};
