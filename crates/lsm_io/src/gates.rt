//! Places at which a call that runs may be watched or held up.

/// A place in a call that works on its own thread.
#[derive(Clone, Copy, Debug, PartialEq, Eq)]
pub enum Point {
    /// Before the next piece of a file is copied.
    CopyPiece,
    /// A write is done and not yet answered.
    WriteDone,
    /// Before the next step of a merge.
    MergeStep,
}

/// Told of each such place as it is reached. It may take its time there, and answers nothing.
pub trait Gate {
    /// The call has come to this place.
    fn reached(&self, point: Point);
}

/// A gate that holds nobody up.
#[derive(Clone, Copy, Debug, PartialEq, Eq)]
pub struct OpenGate;

impl Gate for OpenGate {
    fn reached(&self, _point: Point) {}
}
