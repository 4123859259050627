//! Numbers and bytes as a meta spells them.
ghost use Rattle.std.specs.Prelude.{◌≡◌, Option, Some, None, IfOk};
ghost use Rattle.std.specs.Char.{is_ascii_digit};
ghost use Rattle.std.specs.List.{list_all};
ghost use Rattle.bk_meta.specs.Numbers.{is_decimal, number_up_to, is_lower_digit, metadata_of};

use hex::FromHexError;
use lsm_bytes::{Bytes, NoMemory};
use std::alloc::Global;
use std::str;

/// The most hexadecimal digits that metadata have.
const METADATA_DIGITS: usize = 2048;

fn has_digits(text: &[u8]) -> bool
    ensures { result ≡ list_all is_ascii_digit text.now }
{
    text.iter().all(|byte| byte.is_ascii_digit())
}

#[tactic(auto, unfolding(crate::specs::Numbers::is_decimal))]
fn is_decimal(text: &[u8]) -> bool
    ensures { result ≡ is_decimal text.now }
{
    if text.is_empty() {
        return false;
    }
    has_digits(text) && (text.len() == 1 || text[0] != b'0')
}

/// The number that a text spells in decimal, at most `last`.
pub fn number_up_to(last: u64, text: &[u8]) -> Option<u64>
    ensures { result ≡ number_up_to last text.now }
{
    if !is_decimal(text) {
        return None;
    }
    let number: u64 = str::from_utf8(text).ok()?.parse().ok()?;
    if number <= last { Some(number) } else { None }
}

#[tactic(auto, unfolding(crate::specs::Numbers::is_lower_digit))]
fn is_lower_digit(byte: u8) -> bool
    ensures { result ≡ is_lower_digit byte }
{
    ((b'0' <= byte) && (byte <= b'9')) || ((b'a' <= byte) && (byte <= b'f'))
}

fn has_lower_digits(text: &[u8]) -> bool
    ensures { result ≡ list_all is_lower_digit text.now }
{
    text.iter().all(|byte| is_lower_digit(*byte))
}

/// The bytes of a backup's metadata, by their digits.
#[tactic(auto, unfolding(crate::specs::Numbers::metadata_of))]
pub fn metadata_of(alloc: Global, digits: &[u8]) -> Result<Option<Bytes>, NoMemory>
    ensures { IfOk result (λ bytes. bytes ≡ metadata_of digits.now) }
{
    if digits.len() < 2 || digits.len() > METADATA_DIGITS || !has_lower_digits(digits) {
        return Ok(None);
    }
    match hex::decode(alloc, digits) {
        Ok(bytes) => Ok(Some(Bytes::from_vec(bytes))),
        Err(FromHexError::OutOfMemory) => Err(NoMemory),
        Err(_) => Ok(None),
    }
}
