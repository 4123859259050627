//! One step of a reader: what stands at a place of a block, and what it makes of the record under way.
ghost use Rattle.std.specs.Prelude.{◌≡◌, ◌+◌, ◌-◌, ◌%◌, ◌<◌, ◌≤◌, ◌^◌, ◌==◌, ℕ, List, length, take, IfOk};
ghost use Rattle.std.specs.List.{list_all};
ghost use Rattle.lsm_frame.specs.Records.{taken, ended};
ghost use Rattle.lsm_frame.specs.Reading.{in_block, under_way, IsReady, IsPiece, IsStanding, IsInside, IsStep, Leads, took};

use crate::Ending;
use crate::pieces::{BLOCK, HEADER, checksum};
use lsm_bytes::{Bytes, NoMemory};

/// What stands at a place: an end, the zeros that end a block, or a whole piece with a right checksum.
pub(crate) enum Standing {
    Nothing(Ending),
    Zeros,
    Whole { kind: u8, part: usize },
}

fn all_zeros(bytes: &[u8]) -> bool
    ensures { result ≡ list_all (λ (b : ℕ). b == 0) bytes.now }
{
    for byte in bytes {
        if *byte != 0 {
            return false;
        }
    }
    true
}

/// The piece at a place where a header fits into the block. The bytes are those that are there of the block.
#[tactic(auto, unfolding(crate::specs::Records::piece_at))]
fn read_piece(rest: &[u8], place: u64, offset: usize) -> Standing
    requires { offset ≤ 32761 }
    ensures is { IsPiece place offset rest.now result }
    ensures inside { IsInside offset (length rest.now) result }
{
    if rest.is_empty() {
        return Standing::Nothing(Ending::End);
    }
    if rest.len() < HEADER {
        return Standing::Nothing(Ending::Torn { place });
    }
    let part = u16::from_le_bytes([rest[4], rest[5]]) as usize;
    if offset + HEADER + part > BLOCK {
        return Standing::Nothing(Ending::Malformed { place });
    }
    if rest.len() < HEADER + part {
        return Standing::Nothing(Ending::Torn { place });
    }
    let kept = u32::from_le_bytes([rest[0], rest[1], rest[2], rest[3]]);
    let kind = rest[6];
    let found = checksum(kind, &rest[HEADER..HEADER + part]);
    if kept == found {
        Standing::Whole { kind, part }
    } else {
        Standing::Nothing(Ending::Damaged { place, kept, found })
    }
}

/// What stands at a place. The bytes are those that are there of the block, from its offset on.
fn look(rest: &[u8], place: u64, offset: usize) -> Standing
    requires offset { offset < 32768 }
    requires within { length rest.now ≤ 32768 - offset }
    ensures is { (text : List ℕ) → rest.now ≡ take (32768 - offset) text → IsStanding place offset text result }
    ensures inside { IsInside offset (length rest.now) result }
{
    if offset <= BLOCK - HEADER {
        return read_piece(rest, place, offset);
    }
    if !all_zeros(rest) {
        return Standing::Nothing(Ending::Malformed { place });
    }
    if rest.len() < BLOCK - offset {
        return Standing::Nothing(Ending::End);
    }
    Standing::Zeros
}

/// What a piece makes of the record under way: it ends it or goes on with it, at the place where the record began, or
/// may not stand here.
enum Taking {
    Full(u64),
    Part(u64),
    Refused,
}

#[tactic(auto, unfolding(crate::specs::Records::taken))]
fn take_piece(begun: Option<u64>, place: u64, kind: u8) -> Taking
    ensures { (bytes part : List ℕ) → IsReady begun bytes →
        taken (under_way begun bytes) (record { place = place; kind = kind; part = part }) ≡ took bytes part result }
{
    match begun {
        None => match kind {
            1 => Taking::Full(place),
            2 => Taking::Part(place),
            _ => Taking::Refused,
        },
        Some(from) => match kind {
            3 => Taking::Part(from),
            4 => Taking::Full(from),
            _ => Taking::Refused,
        },
    }
}

/// How the text ends, where the record under way has begun or not.
pub(crate) fn end_inside(begun: Option<u64>, ending: Ending) -> Ending
    ensures { (bytes : List ℕ) → result ≡ ended (under_way begun bytes) ending }
{
    match begun {
        None => ending,
        Some(from) => match ending {
            Ending::End | Ending::Torn { .. } => Ending::Torn { place: from },
            Ending::Damaged { place, kept, found } => Ending::Damaged { place, kept, found },
            Ending::Malformed { place } => Ending::Malformed { place },
        },
    }
}

/// What one step led to: the text's end; a record, by its place and where the next one is looked for; or that far, with
/// the place of the record under way.
pub(crate) enum Step {
    Over(Ending),
    Record { place: u64, next: u64 },
    More { begun: Option<u64>, next: u64 },
}

/// One step from a place. The bytes are those that are there of the place's block. After an error the payload is as it
/// was.
pub(crate) fn take_step(
    rest: &[u8],
    at: u64,
    begun: Option<u64>,
    payload: &mut Bytes,
) -> Result<Step, NoMemory>
    requires within { length rest.now ≤ 32768 - at % 32768 }
    requires small { at + length rest.now < 2 ^ 64 }
    requires ready { IsReady begun payload.old }
    ensures is { IfOk result (λ step. (text : List ℕ) → rest.now ≡ in_block at text →
        IsStep (under_way begun payload.old) at text payload.new step) }
    ensures leads { IfOk result (λ step. Leads at (length rest.now) payload.new step) }
{
    match look(rest, at, (at % BLOCK as u64) as usize) {
        Standing::Nothing(ending) => Ok(Step::Over(end_inside(begun, ending))),
        Standing::Zeros => Ok(Step::More {
            begun,
            next: at + rest.len() as u64,
        }),
        Standing::Whole { kind, part } => {
            let size = HEADER + part;
            let next = at + size as u64;
            match take_piece(begun, at, kind) {
                Taking::Full(place) => {
                    payload.extend_from_slice(&rest[HEADER..size])?;
                    Ok(Step::Record { place, next })
                }
                Taking::Part(place) => {
                    payload.extend_from_slice(&rest[HEADER..size])?;
                    Ok(Step::More {
                        begun: Some(place),
                        next,
                    })
                }
                Taking::Refused => Ok(Step::Over(Ending::Malformed { place: at })),
            }
        }
    }
}
