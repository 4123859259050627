//! Checksums, numbers and lists of bytes, against known vectors.

use crate::claims::sure;
use lsm_bytes::{
    Bytes, Crc, Malformed, NoMemory, mask, push_varint, read_u16, read_u32, read_u64, read_varint,
    unmask,
};
use std::alloc::Global;

/// Bytes and their CRC32C.
const CHECKSUMS: &[(&'static [u8], u32)] = &[
    (b"123456789", 3_808_858_755),
    (b"", 0),
    (&[0; 32], 0x8A91_36AA),
    (&[0xFF; 32], 0x62A8_AB43),
];

/// Checksums and the numbers as which files keep them.
const MASKED: &[(u32, u32)] = &[(3_808_858_755, 0xC78A_B0E5), (0, 0xA282_EAD8)];

const NUMBERS: &[u8] = b"\x00\x01\x02\x03\x04\x05\x06\x07\x08";

/// Numbers and their spellings.
const SPELLINGS: &[(u64, &'static [u8])] = &[
    (0, b"\x00"),
    (127, b"\x7f"),
    (128, b"\x80\x01"),
    (300, b"\xac\x02"),
    (16384, b"\x80\x80\x01"),
    (u64::MAX, b"\xff\xff\xff\xff\xff\xff\xff\xff\xff\x01"),
];

/// Bytes that hold no number at a place, and the place of the fault.
const FAULTS: &[(&'static [u8], usize, usize)] = &[
    (b"", 0, 0),
    (b"\x80", 0, 1),
    (b"\x80\x00", 0, 1),
    (b"\x07\x80\x80\x00\x01", 1, 3),
    (b"\xff\xff\xff\xff\xff\xff\xff\xff\xff\x02", 0, 9),
    (b"\xff\xff\xff\xff\xff\xff\xff\xff\xff\x81\x01", 0, 9),
    (b"\x07\x07", 2, 2),
    (b"\x07\x07", 3, 2),
];

fn checksum(bytes: &[u8]) -> u32 {
    let mut crc = Crc::new();
    crc.update(bytes);
    crc.value()
}

fn masked(crc: u32) -> u32 {
    mask(crc)
}

fn unmasked(kept: u32) -> u32 {
    unmask(kept)
}

fn u16_at(at: usize) -> Result<u16, Malformed> {
    read_u16(NUMBERS, at)
}

fn u32_at(at: usize) -> Result<u32, Malformed> {
    read_u32(NUMBERS, at)
}

fn u64_at(at: usize) -> Result<u64, Malformed> {
    read_u64(NUMBERS, at)
}

fn spelled(alloc: Global, number: u64) -> Result<Bytes, NoMemory> {
    let mut out = Bytes::new(alloc);
    push_varint(&mut out, number)?;
    Ok(out)
}

fn varint_at(bytes: &[u8], at: usize) -> Result<(u64, usize), Malformed> {
    read_varint(bytes, at)
}

fn list_of(alloc: Global, bytes: &[u8]) -> Result<Bytes, NoMemory> {
    Bytes::from_slice(alloc, bytes)
}

fn grow(list: &mut Bytes) -> Result<(), NoMemory> {
    list.reserve(2)?;
    list.push(b'g')?;
    list.extend_from_slice(b"log")?;
    Ok(())
}

fn cut(list: &mut Bytes, len: usize) {
    list.truncate(len);
}

fn copied(alloc: Global, list: &Bytes) -> Result<Bytes, NoMemory> {
    list.copy(alloc)
}

fn there_and_back(list: Bytes) -> Bytes {
    Bytes::from_vec(list.into_vec())
}

fn has(list: &Bytes, bytes: &[u8]) -> bool {
    list.as_slice() == bytes
}

fn has_count(list: &Bytes, len: usize) -> bool {
    list.len() == len && list.is_empty() == (len == 0)
}

fn emptied(list: Bytes) -> Bytes {
    let mut list = list;
    list.clear();
    list
}

fn are_checksums(rows: &[(&'static [u8], u32)]) -> bool {
    for (bytes, want) in rows {
        let found = checksum(bytes);
        if found != *want {
            return false;
        }
    }
    true
}

fn are_masked(rows: &[(u32, u32)]) -> bool {
    for (crc, kept) in rows {
        let found = (masked(*crc), unmasked(*kept));
        if found != (*kept, *crc) {
            return false;
        }
    }
    true
}

fn numbers_are_read() -> bool {
    let whole = u16_at(7) == Ok(0x0807) && u32_at(5) == Ok(0x0807_0605);
    whole && u64_at(1) == Ok(0x0807_0605_0403_0201) && u64_at(2) == Err(Malformed { place: 9 })
}

fn are_spellings(alloc: Global, rows: &[(u64, &'static [u8])]) -> Result<bool, NoMemory> {
    for (number, spelling) in rows {
        let is_written = has(&spelled(alloc, *number)?, spelling);
        if !is_written || varint_at(spelling, 0) != Ok((*number, spelling.len())) {
            return Ok(false);
        }
    }
    Ok(true)
}

fn are_faults(rows: &[(&'static [u8], usize, usize)]) -> bool {
    for (bytes, at, place) in rows {
        let found = varint_at(bytes, *at);
        if found != Err(Malformed { place: *place }) {
            return false;
        }
    }
    true
}

fn errors_are_printed(alloc: Global) -> Result<bool, NoMemory> {
    let malformed = Malformed { place: 7 };
    let text = format!(in alloc; "{malformed}, {NoMemory}")?;
    Ok(text.as_str() == "malformed at 7, no memory")
}

fn a_list_grows(alloc: Global) -> Result<bool, NoMemory> {
    let mut list = list_of(alloc, b"lo")?;
    grow(&mut list)?;
    cut(&mut list, 4);
    Ok(has(&list, b"logl") && has_count(&list, 4))
}

fn lists_compare(alloc: Global) -> Result<bool, NoMemory> {
    let list = list_of(alloc, b"logl")?;
    let is_equal = copied(alloc, &list)? == list;
    Ok(is_equal && there_and_back(list) > list_of(alloc, b"log")?)
}

fn a_list_is_emptied(alloc: Global) -> Result<bool, NoMemory> {
    Ok(has_count(&emptied(list_of(alloc, b"log")?), 0))
}

#[test]
fn known_bytes_have_their_known_checksums(rt: HostRuntime) {
    sure(&rt, Ok(are_checksums(CHECKSUMS)));
}

#[test]
fn known_checksums_are_kept_as_known_numbers(rt: HostRuntime) {
    sure(&rt, Ok(are_masked(MASKED)));
}

#[test]
fn the_lowest_byte_comes_first(rt: HostRuntime) {
    sure(&rt, Ok(numbers_are_read()));
}

#[test]
fn known_numbers_have_their_known_spellings(rt: HostRuntime) {
    sure(&rt, are_spellings(rt.alloc(), SPELLINGS));
}

#[test]
fn malformed_spellings_have_their_first_fault(rt: HostRuntime) {
    sure(&rt, Ok(are_faults(FAULTS)));
}

#[test]
fn malformed_bytes_print_what_they_are(rt: HostRuntime) {
    sure(&rt, errors_are_printed(rt.alloc()));
}

#[test]
fn a_list_grows_while_there_is_memory(rt: HostRuntime) {
    sure(&rt, a_list_grows(rt.alloc()));
    sure(&rt, lists_compare(rt.alloc()));
}

#[test]
fn an_emptied_list_has_no_bytes(rt: HostRuntime) {
    sure(&rt, a_list_is_emptied(rt.alloc()));
}
