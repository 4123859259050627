//! A source, line by line. A line is bounded before it is kept.
ghost use Rattle.std.specs.Prelude.{◌≡◌, ◌≤◌, IfOk, OnErr, Err};
ghost use Rattle.std.specs.Io.KnownBytes.{Keeps};
ghost use Rattle.ldb_script.specs.declared.input.InputError.TheVariants as input;
ghost use Rattle.lsm_io.specs.Causes.{Rose};
ghost use Rattle.ldb_script.specs.Input.{IsByte, last_of, Reads};

use lsm_bytes::Bytes;
use lsm_io::{Failed, Source};

/// How many bytes a line has at most, without its newline.
const LONGEST: u32 = 8_388_608;

/// What stopped the reading of a line.
#[derive(Clone, Copy, Debug, PartialEq, Eq)]
pub enum InputError {
    /// The source failed. The bytes that were read stand in the line.
    Failed,
    /// The line goes on behind its longest length.
    TooLong,
    NoMemory,
}

/// What was read.
#[derive(Clone, Copy, Debug, PartialEq, Eq)]
pub enum Piece {
    /// A line with its newline.
    Line,
    /// A line that the end of the input ends.
    Last,
    /// Nothing is left.
    End,
}

/// Reads one byte, or none at the end. A source that fails loses none.
pub fn read_byte<S: Source>(source: &mut S) -> Result<Option<u8>, Failed>
    ensures read { IfOk result (λ byte. IsByte (S.left source.old) (S.left source.new) byte) }
    ensures kept { OnErr result (Keeps (S.left source.old) (S.left source.new)) }
    ensures later { S.faults source.old ≤ S.faults source.new }
    ensures rose { OnErr result (Rose (S.faults source.old) (S.faults source.new)) }
{
    let mut byte = [0u8; 1];
    match source.read(&mut byte) {
        Ok(0) => Ok(None),
        Ok(_) => Ok(Some(byte[0])),
        Err(failed) => Err(failed),
    }
}

// What stands before the end of the input.
fn last_piece(line: &Bytes) -> Piece
    ensures { result ≡ last_of line.now }
{
    if line.len() == 0 {
        Piece::End
    } else {
        Piece::Last
    }
}

/// Reads the next line.
pub fn read_line<S: Source>(source: &mut S, line: &mut Bytes) -> Result<Piece, InputError>
    ensures read { Reads (S.left source.old) (S.left source.new) line.new result }
    ensures later { S.faults source.old ≤ S.faults source.new }
    ensures rose { result ≡ Err input.Failed → Rose (S.faults source.old) (S.faults source.new) }
{
    line.clear();
    for _ in 0..LONGEST {
        match read_byte(source) {
            Ok(None) => return Ok(last_piece(line)),
            Ok(Some(b'\n')) => return Ok(Piece::Line),
            Ok(Some(byte)) => {
                if line.push(byte).is_err() {
                    return Err(InputError::NoMemory);
                }
            }
            Err(_) => return Err(InputError::Failed),
        }
    }
    match read_byte(source) {
        Ok(None) => Ok(last_piece(line)),
        Ok(Some(b'\n')) => Ok(Piece::Line),
        Ok(Some(_)) => Err(InputError::TooLong),
        Err(_) => Err(InputError::Failed),
    }
}
