//! Texts that a reader reads, against what another program read of them.

use crate::claims::sure;
use crate::frame::{add, letters};
use crate::view::TextView;
use lsm_bytes::{Bytes, Crc, NoMemory, mask};
use lsm_frame::{FrameError, FrameReader, FrameWriter, Next};
use std::alloc::Global;

/// What a text is made of. Payloads are of one letter each: `a` in the first item, `b` in the
/// second.
enum Item {
    /// A record of so many letters, as the writer writes it.
    Record(usize),
    /// A piece of this kind and so many letters, with a right checksum, where the text ends.
    Piece(u8, u16),
    /// So many zeros.
    Zeros(usize),
}

use Item::{Piece as P, Record as R, Zeros as Z};

/// A text, how many bytes are then cut off from its end, and at which place which bits are then
/// turned; and what is read: how many records, which end (`E`, `T`orn, `D`amaged, `M`alformed), its
/// place, and the checksum of all.
type Case = (&'static [Item], usize, (usize, u8), u64, u8, u64, u32);

#[rattlefmt::skip]
const CASES: &[Case] = &[
    (&[R(32761)], 0, (0, 0), 1, b'E', 0, 0xADFC3E8D),
    (&[R(32762)], 0, (0, 0), 1, b'E', 0, 0x997A341C),
    (&[R(32754), R(3)], 0, (0, 0), 2, b'E', 0, 0x7535CAEA),
    (&[R(32755), R(3)], 0, (0, 0), 2, b'E', 0, 0x3C7DB103),
    (&[], 0, (0, 0), 0, b'E', 0, 0x42709AEA),
    (&[R(65530), R(1)], 0, (0, 0), 2, b'E', 0, 0x83FAA0CF),
    (&[R(65530), R(1)], 9, (0, 0), 0, b'T', 0, 0x42709AEA),
    (&[R(32755)], 0, (0, 0), 1, b'E', 0, 0xCEA64681),
    (&[R(32755), Z(6)], 0, (0, 0), 1, b'E', 0, 0xCEA64681),
    (&[R(32755), Z(4)], 0, (0, 0), 1, b'E', 0, 0xCEA64681),
    (&[P(2, 32755)], 0, (0, 0), 0, b'T', 0, 0x42709AEA),
    (&[P(2, 32755), Z(6)], 0, (0, 0), 0, b'T', 0, 0x42709AEA),
    (&[P(2, 32755), Z(6), P(4, 2)], 0, (0, 0), 1, b'E', 0, 0x06562F3D),
    (&[P(2, 32755), Z(6)], 0, (32764, 1), 0, b'M', 32762, 0xC2D9749B),
    (&[P(1, 0)], 0, (0, 0), 1, b'E', 0, 0x8A9136AA),
    (&[P(2, 0), P(3, 0), P(4, 0)], 0, (0, 0), 1, b'E', 0, 0x8A9136AA),
    (&[R(32754), P(1, 0), R(1)], 0, (0, 0), 3, b'E', 0, 0xA7A01248),
    (&[R(50), R(32700), R(3)], 40, (32768, 4), 1, b'T', 57, 0x75625422),
    (&[R(32755), Z(6), R(20)], 0, (0, 0), 2, b'E', 0, 0xAC51C49D),
    (&[R(32754), R(13)], 3, (0, 0), 1, b'T', 32761, 0x844AD8A6),
    (&[R(32754), P(3, 3)], 0, (0, 0), 1, b'M', 32761, 0x844AD8A6),
    (&[R(32725), P(3, 3), P(1, 20)], 0, (0, 0), 1, b'M', 32732, 0x0D7C7C74),
    (&[R(3), P(2, 8), Z(7), P(4, 20), R(20)], 0, (0, 0), 1, b'D', 25, 0xDED5CDDA),
    (&[R(13), P(0, 5), P(4, 0), P(3, 2), P(1, 5)], 0, (0, 0), 1, b'M', 20, 0x432A566C),
    (&[R(32760), R(3)], 9, (0, 0), 1, b'T', 32768, 0xC05D2788),
    (&[R(23), R(33000), R(5)], 1, (0, 0), 2, b'T', 33044, 0xAC3B46EE),
    (&[R(32754), R(20), R(20)], 0, (32814, 16), 2, b'D', 32795, 0x80A4C510),
    (&[R(32753), Z(1)], 0, (0, 0), 1, b'T', 32760, 0xE1B97923),
    (&[R(13), P(2, 20), Z(7), P(1, 1), R(5)], 0, (0, 0), 1, b'D', 47, 0x90B4952B),
    (&[R(32723), P(3, 0), P(4, 1)], 0, (0, 0), 1, b'M', 32730, 0xFCF877BE),
    (&[R(32725), Z(39), R(1)], 0, (0, 0), 1, b'D', 32732, 0x7E958926),
    (&[R(32748), R(20), R(1)], 0, (32790, 1), 2, b'D', 32789, 0xDFB2ACFE),
    (&[R(32755), P(1, 1)], 0, (0, 0), 1, b'M', 32762, 0x4E0FA8F0),
    (&[R(32751), R(1)], 20, (0, 0), 0, b'T', 0, 0x42709AEA),
    (&[R(32735), P(2, 3)], 0, (0, 0), 1, b'T', 32742, 0x611AA67C),
    (&[R(32754), R(20)], 0, (32790, 8), 1, b'D', 32768, 0x953D2718),
    (&[R(32740), Z(21)], 0, (32755, 128), 1, b'D', 32747, 0xCEA0773C),
    (&[R(32752), R(13), R(8)], 0, (32778, 64), 1, b'D', 32768, 0xC55AFB73),
    (&[R(32750), R(20)], 0, (32763, 32), 1, b'D', 32757, 0x81D34751),
    (&[R(32760), P(3, 3), P(1, 8)], 0, (0, 0), 1, b'M', 32767, 0x5EFFC24F),
    (&[R(32725), R(20)], 20, (0, 0), 1, b'T', 32732, 0x0D7C7C74),
    (&[R(32743), R(1)], 0, (32738, 8), 0, b'D', 0, 0xCE7EE850),
    (&[R(32751), Z(13)], 0, (32764, 2), 1, b'D', 32758, 0xD768EDF2),
    (&[R(32760), R(5), R(2)], 0, (32778, 16), 1, b'D', 32768, 0xC6BC2258),
    (&[R(32753), R(3), R(13)], 0, (32782, 32), 2, b'T', 32777, 0xEB6CC9B9),
    (&[R(32744), R(1), R(1)], 0, (32751, 128), 1, b'D', 32751, 0xAC2812D8),
    (&[R(32754), P(2, 1), P(3, 20), P(1, 1)], 0, (0, 0), 1, b'M', 32761, 0x844AD8A6),
    (&[R(32725), Z(3)], 2, (32734, 32), 1, b'T', 32732, 0x0D7C7C74),
    (&[R(1), P(2, 2), Z(7), P(4, 5), R(5)], 2, (0, 0), 1, b'D', 17, 0x1EF40754),
    (&[R(32724), Z(37)], 1, (0, 0), 1, b'D', 32731, 0x1D6F0673),
    (&[R(47), R(32700), R(1)], 14, (32780, 128), 2, b'T', 32761, 0x71287A33),
    (&[R(50), R(33000), R(5)], 14, (0, 0), 1, b'T', 57, 0x75625422),
    (&[R(8), P(2, 8), Z(7), P(4, 5), R(5)], 0, (0, 0), 1, b'D', 30, 0x58E4C061),
    (&[R(66), R(32768), R(1)], 40, (32768, 128), 1, b'T', 73, 0x0B95BDFF),
    (&[R(59), R(32700), R(8)], 40, (0, 0), 1, b'T', 66, 0x2EEED383),
    (&[R(32740), P(3, 3), P(1, 8), P(4, 1)], 0, (0, 0), 1, b'M', 32747, 0xBD49826E),
    (&[R(32750), P(4, 40)], 0, (0, 0), 1, b'M', 32757, 0x7D1E3738),
    (&[R(32753), P(3, 3)], 0, (0, 0), 1, b'M', 32760, 0xE1B97923),
    (&[R(1), P(2, 2), P(2, 5), R(20)], 0, (0, 0), 1, b'M', 17, 0x6D1DF206),
    (&[R(32724), P(2, 7), P(1, 2)], 0, (0, 0), 1, b'M', 32745, 0xB518E7ED),
    (&[R(32745), Z(3), R(20)], 0, (32754, 1), 1, b'M', 32752, 0xB8377F66),
    (&[R(1), R(3), P(0, 0), P(0, 2), P(1, 5)], 0, (0, 0), 2, b'M', 18, 0xA14CD998),
    (&[R(32745), P(1, 40)], 0, (0, 0), 1, b'M', 32752, 0xB8377F66),
    (&[R(3), P(2, 1), P(3, 1), R(1)], 0, (0, 0), 1, b'M', 26, 0xBEC4587B),
];

const AFTER_A_FAULT: &[Item] = &[R(20), R(40_000), R(5)];

/// Which read fails, and how many faults and reads there are: the long record is begun again from
/// its first block.
const FAULTS: &[(u64, u64, u64)] = &[(0, 0, 2), (1, 1, 3), (2, 1, 4), (3, 0, 2)];

const PRINTED: &[(FrameError, &'static str)] = &[
    (FrameError::ReadFault, "read fault"),
    (
        FrameError::Damaged {
            place: 10,
            kept: 7,
            found: 9,
        },
        "damaged at 10: checksum 7, found 9",
    ),
    (FrameError::Malformed { place: 10 }, "malformed at 10"),
    (FrameError::NoMemory, "no memory"),
];

/// What a reader gave until it came to an end.
#[derive(Clone, Copy, PartialEq)]
struct Told {
    records: u64,
    faults: u64,
    end: u8,
    place: u64,
    checksum: u32,
}

/// What a reader gave so far.
#[derive(Drop)]
struct Tally {
    records: u64,
    faults: u64,
    crc: Crc,
}

/// The checksum that a piece of this kind and part keeps.
fn piece_checksum(kind: u8, part: &[u8]) -> u32 {
    let mut crc = Crc::new();
    crc.update(&[kind]);
    crc.update(part);
    mask(crc.value())
}

fn add_piece(text: &mut Bytes, kind: u8, size: u16, part: &[u8]) -> Result<(), NoMemory> {
    text.extend_from_slice(&piece_checksum(kind, part).to_le_bytes())?;
    text.extend_from_slice(&size.to_le_bytes())?;
    text.push(kind)?;
    text.extend_from_slice(part)
}

fn add_record(text: &mut Bytes, payload: &[u8]) -> Result<(), NoMemory> {
    add(&mut FrameWriter::new(text.len() as u64), payload, text)
}

fn add_bytes(text: &mut Bytes, bytes: &[u8]) -> Result<(), NoMemory> {
    text.extend_from_slice(bytes)
}

fn add_item(text: &mut Bytes, item: &Item, letter: u8, alloc: Global) -> Result<(), NoMemory> {
    match item {
        Item::Record(size) => add_record(text, &letters(alloc, letter, *size)?),
        Item::Piece(kind, size) => {
            let part = letters(alloc, letter, *size as usize)?;
            add_piece(text, *kind, *size, &part)
        }
        Item::Zeros(size) => add_bytes(text, &letters(alloc, 0, *size)?),
    }
}

fn whole_text(items: &[Item], alloc: Global) -> Result<Bytes, NoMemory> {
    let mut text = Bytes::new(alloc);
    let mut letter = b'a';
    for item in items {
        add_item(&mut text, item, letter, alloc)?;
        letter = letter.wrapping_add(1);
    }
    Ok(text)
}

fn cut_and_turned(text: Bytes, cut: usize, flip: (usize, u8)) -> Vec<u8> {
    let mut bytes = text.into_vec();
    let len = bytes.len().saturating_sub(cut);
    bytes.truncate(len);
    if let Some(byte) = bytes.get_mut(flip.0) {
        *byte ^= flip.1;
    }
    bytes
}

fn reader_of(alloc: Global, bytes: Vec<u8>, fails: u64) -> FrameReader<TextView> {
    FrameReader::new(alloc, TextView::new(bytes, fails))
}

fn next(reader: &mut FrameReader<TextView>) -> Result<Next, FrameError> {
    reader.next()
}

fn place(reader: &FrameReader<TextView>) -> u64 {
    reader.place()
}

fn reads(reader: FrameReader<TextView>) -> u64 {
    reader.into_view().reads()
}

fn tally_record(tally: &mut Tally, place: u64, payload: &[u8]) {
    tally.records = tally.records.saturating_add(1);
    tally.crc.update(&place.to_le_bytes());
    tally.crc.update(&(payload.len() as u64).to_le_bytes());
    tally.crc.update(payload);
}

fn tally_end(tally: &mut Tally, place: u64, kept: u32, found: u32) {
    tally.crc.update(&place.to_le_bytes());
    tally.crc.update(&kept.to_le_bytes());
    tally.crc.update(&found.to_le_bytes());
}

/// How a reader ends, at which place, and with which checksums; a fault is `F`, want of memory `N`.
fn end_of(answer: &Result<Next, FrameError>) -> (u8, u64, u32, u32) {
    match answer {
        Ok(Next::Record(_)) => (b'R', 0, 0, 0),
        Ok(Next::End) => (b'E', 0, 0, 0),
        Ok(Next::Torn { place }) => (b'T', *place, 0, 0),
        Err(FrameError::Damaged { place, kept, found }) => (b'D', *place, *kept, *found),
        Err(FrameError::Malformed { place }) => (b'M', *place, 0, 0),
        Err(FrameError::ReadFault) => (b'F', 0, 0, 0),
        Err(FrameError::NoMemory) => (b'N', 0, 0, 0),
    }
}

fn told_at_end(tally: &mut Tally, answer: &Result<Next, FrameError>) -> Told {
    let (end, place, kept, found) = end_of(answer);
    tally_end(tally, place, kept, found);
    Told {
        records: tally.records,
        faults: tally.faults,
        end,
        place,
        checksum: tally.crc.value(),
    }
}

/// Notes what one call gives, and tells all where it is the end.
fn step(reader: &mut FrameReader<TextView>, tally: &mut Tally) -> Option<Told> {
    match next(reader) {
        Ok(Next::Record(payload)) => {
            tally_record(tally, place(reader), payload.as_slice());
            None
        }
        Err(FrameError::ReadFault) => {
            tally.faults = tally.faults.saturating_add(1);
            None
        }
        answer => Some(told_at_end(tally, &answer)),
    }
}

/// Reads to the end, in at most ten calls.
fn read_all(reader: &mut FrameReader<TextView>) -> Option<Told> {
    let mut tally = Tally {
        records: 0,
        faults: 0,
        crc: Crc::new(),
    };
    for _ in 0..10u32 {
        let over = step(reader, &mut tally);
        if over.is_some() {
            return over;
        }
    }
    None
}

fn is_read_so(alloc: Global, bytes: Vec<u8>, want: Told) -> bool {
    read_all(&mut reader_of(alloc, bytes, 0)) == Some(want)
}

fn are_read_so(alloc: Global, rows: &[Case]) -> Result<bool, NoMemory> {
    for (items, cut, flip, records, end, place, checksum) in rows {
        let bytes = cut_and_turned(whole_text(items, alloc)?, *cut, *flip);
        let want = Told {
            records: *records,
            faults: 0,
            end: *end,
            place: *place,
            checksum: *checksum,
        };
        if !is_read_so(alloc, bytes, want) {
            return Ok(false);
        }
    }
    Ok(true)
}

fn is_at_the_end(answer: &Result<Next, FrameError>) -> bool {
    matches!(answer, Ok(Next::End))
}

fn is_read_again(alloc: Global, fails: u64, faults: u64, count: u64) -> Result<bool, NoMemory> {
    let bytes = cut_and_turned(whole_text(AFTER_A_FAULT, alloc)?, 0, (0, 0));
    let mut reader = reader_of(alloc, bytes, fails);
    let want = Told {
        records: 3,
        faults,
        end: b'E',
        place: 0,
        checksum: 0x9069_106C,
    };
    let is_read = read_all(&mut reader) == Some(want);
    let is_over = is_at_the_end(&next(&mut reader)) && place(&reader) == 40_041;
    Ok(is_read && is_over && reads(reader) == count)
}

fn are_read_again(alloc: Global, rows: &[(u64, u64, u64)]) -> Result<bool, NoMemory> {
    for (fails, faults, count) in rows {
        if !is_read_again(alloc, *fails, *faults, *count)? {
            return Ok(false);
        }
    }
    Ok(true)
}

fn is_printed(alloc: Global, error: FrameError, text: &str) -> Result<bool, NoMemory> {
    Ok(format!(in alloc; "{error}")?.as_str() == text)
}

fn are_printed(alloc: Global, rows: &[(FrameError, &'static str)]) -> Result<bool, NoMemory> {
    for (error, text) in rows {
        if !is_printed(alloc, *error, text)? {
            return Ok(false);
        }
    }
    Ok(true)
}

#[test]
fn texts_are_read_as_another_program_read_them(rt: HostRuntime) {
    sure(&rt, are_read_so(rt.alloc(), CASES));
}

#[test]
fn a_record_is_asked_for_again_after_a_fault(rt: HostRuntime) {
    sure(&rt, are_read_again(rt.alloc(), FAULTS));
}

#[test]
fn frame_errors_print_what_they_are(rt: HostRuntime) {
    sure(&rt, are_printed(rt.alloc(), PRINTED));
}
