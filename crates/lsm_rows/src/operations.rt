//! One operation of a batch.
use lsm_bytes::Bytes;

/// One operation on a key. The key has 0 to 65,535 bytes and the value 0 to 1,048,576, both of any bytes;
/// a batch tests that as an operation comes in.
#[derive(Drop)]
pub enum Op {
    /// The key has this value from now on.
    Put { key: Bytes, value: Bytes },
    /// The key has no value from now on, whether it had one or not.
    Delete { key: Bytes },
}
