//! The bytes of a log against those that another program computed.

use crate::claims::sure;
use lsm_bytes::{Bytes, Crc, NoMemory};
use lsm_frame::FrameWriter;
use std::alloc::Global;

/// A place in a log, and the seven bytes that stand there.
type Header = (usize, [u8; 7]);

/// A log of a record of so many letters `x`, and of a second record where that isn't empty.
struct Log {
    letters: usize,
    second: &'static [u8],
    len: usize,
    checksum: u32,
    headers: &'static [Header],
}

const LOGS: &[Log] = &[
    // A whole block.
    Log {
        letters: 32_761,
        second: b"",
        len: 32_768,
        checksum: 0xE9E2_3E6B,
        headers: &[(0, [0x7F, 0x84, 0x86, 0x0E, 0xF9, 0x7F, 0x01])],
    },
    // One byte more than a block takes.
    Log {
        letters: 32_762,
        second: b"",
        len: 32_776,
        checksum: 0xF644_6756,
        headers: &[
            (0, [0xB7, 0x0A, 0x38, 0x57, 0xF9, 0x7F, 0x02]),
            (32_768, [0x2C, 0x74, 0x1B, 0xD8, 0x01, 0x00, 0x04]),
        ],
    },
    // Seven bytes are left for the second record, which begins with an empty piece.
    Log {
        letters: 32_754,
        second: b"abc",
        len: 32_778,
        checksum: 0xB083_068A,
        headers: &[
            (0, [0x09, 0xD7, 0xC0, 0x4B, 0xF2, 0x7F, 0x01]),
            (32_761, [0x64, 0x51, 0xD0, 0xE9, 0x00, 0x00, 0x02]),
            (32_768, [0xAD, 0xB5, 0x75, 0x70, 0x03, 0x00, 0x04]),
        ],
    },
    // Six bytes are left, which are zeros.
    Log {
        letters: 32_755,
        second: b"abc",
        len: 32_778,
        checksum: 0x9CD9_A980,
        headers: &[
            (0, [0x0C, 0x19, 0x72, 0xAB, 0xF3, 0x7F, 0x01]),
            (32_762, [0x00, 0x00, 0x00, 0x00, 0x00, 0x00, 0xF2]),
            (32_768, [0xF2, 0x70, 0xE8, 0x9D, 0x03, 0x00, 0x01]),
        ],
    },
    // A middle piece fills a block.
    Log {
        letters: 65_530,
        second: b"",
        len: 65_551,
        checksum: 0xBBC9_581F,
        headers: &[
            (0, [0xB7, 0x0A, 0x38, 0x57, 0xF9, 0x7F, 0x02]),
            (32_768, [0xE0, 0x4C, 0xAA, 0xA5, 0xF9, 0x7F, 0x03]),
            (65_536, [0x65, 0x5C, 0x2A, 0x63, 0x08, 0x00, 0x04]),
        ],
    },
];

/// Adds a record, where it isn't empty.
pub fn add(writer: &mut FrameWriter, payload: &[u8], text: &mut Bytes) -> Result<(), NoMemory> {
    if payload.is_empty() {
        return Ok(());
    }
    writer.add(payload, text)
}

/// So many bytes of one letter.
pub fn letters(alloc: Global, letter: u8, count: usize) -> Result<Vec<u8>, NoMemory> {
    Ok(vec![in alloc; letter; count]?)
}

fn written(alloc: Global, first: &[u8], second: &[u8]) -> Result<Bytes, NoMemory> {
    let mut text = Bytes::new(alloc);
    let mut writer = FrameWriter::new(0);
    add(&mut writer, first, &mut text)?;
    add(&mut writer, second, &mut text)?;
    Ok(text)
}

fn checksum(bytes: &[u8]) -> u32 {
    let mut crc = Crc::new();
    crc.update(bytes);
    crc.value()
}

fn has_headers(text: &[u8], headers: &[Header]) -> bool {
    for (place, header) in headers {
        let found = text.get(*place..place.saturating_add(7));
        if found != Some(header.as_slice()) {
            return false;
        }
    }
    true
}

fn is_written_so(alloc: Global, log: &Log) -> Result<bool, NoMemory> {
    let first = letters(alloc, b'x', log.letters)?;
    let text = written(alloc, &first, log.second)?;
    let bytes = text.as_slice();
    let is_whole = bytes.len() == log.len && checksum(bytes) == log.checksum;
    Ok(is_whole && has_headers(bytes, log.headers))
}

fn are_written_so(alloc: Global, logs: &[Log]) -> Result<bool, NoMemory> {
    for log in logs {
        if !is_written_so(alloc, log)? {
            return Ok(false);
        }
    }
    Ok(true)
}

#[test]
fn logs_have_the_bytes_that_another_program_computed(rt: HostRuntime) {
    sure(&rt, are_written_so(rt.alloc(), LOGS));
}
