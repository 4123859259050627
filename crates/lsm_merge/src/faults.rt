//! Why a merge gives no row.

/// Why a merge gives no row. Nothing is lost, and it may be asked again.
#[derive(Debug, Drop)]
pub enum MergeFault<F> {
    /// The source with this place answered this fault. Places are counted from 0.
    Source { place: u32, fault: F },
    /// Memory was wanted and not there.
    NoMemory,
}
