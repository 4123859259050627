//! The words of a line, and the bytes that they stand for.
ghost use Rattle.std.specs.Prelude.{◌≡◌, ◌∷◌, ◌==◌, ◌++◌, Option, Some, None, IfOk, OnOk, map};
ghost use Rattle.std.specs.List.{slice_split, list_all};
ghost use Rattle.std.specs.Option.{option_map};
ghost use Rattle.ldb_script.specs.Words.{
  is_printable,
  is_word,
  is_small_letter,
  is_lower_digit,
  is_hexadecimal,
  is_actor,
  bytes_of_digits,
  bytes_of_word,
  shown,
};

use hex::FromHexError;
use lsm_bytes::{Bytes, NoMemory};
use std::alloc::{AllocError, Global};

#[tactic(auto, unfolding(crate::specs::Words::is_printable))]
fn is_printable(byte: u8) -> bool
    ensures { result ≡ is_printable byte }
{
    (0x21 <= byte) && (byte <= 0x7E)
}

#[tactic(auto, unfolding(crate::specs::Words::is_small_letter))]
fn is_small_letter(byte: u8) -> bool
    ensures { result ≡ is_small_letter byte }
{
    (b'a' <= byte) && (byte <= b'z')
}

#[tactic(auto, unfolding(crate::specs::Words::is_lower_digit))]
fn is_lower_digit(byte: u8) -> bool
    ensures { result ≡ is_lower_digit byte }
{
    ((b'0' <= byte) && (byte <= b'9')) || ((b'a' <= byte) && (byte <= b'f'))
}

fn all_printable(bytes: &[u8]) -> bool
    ensures { result ≡ list_all is_printable bytes.now }
{
    for byte in bytes {
        if !is_printable(*byte) {
            return false;
        }
    }
    true
}

fn all_small_letters(bytes: &[u8]) -> bool
    ensures { result ≡ list_all is_small_letter bytes.now }
{
    for byte in bytes {
        if !is_small_letter(*byte) {
            return false;
        }
    }
    true
}

fn all_lower_digits(bytes: &[u8]) -> bool
    ensures { result ≡ list_all is_lower_digit bytes.now }
{
    for byte in bytes {
        if !is_lower_digit(*byte) {
            return false;
        }
    }
    true
}

#[tactic(auto, unfolding(crate::specs::Words::is_word))]
fn is_word(bytes: &[u8]) -> bool
    ensures { result ≡ is_word bytes.now }
{
    0 < bytes.len() && all_printable(bytes)
}

/// Whether every one of them is a word.
pub fn all_words(words: &[&[u8]]) -> bool
    ensures { result ≡ list_all (λ w. is_word w.now) words.now }
{
    for word in words {
        if !is_word(word) {
            return false;
        }
    }
    true
}

#[tactic(auto, unfolding(crate::specs::Words::is_actor))]
pub fn is_actor(word: &[u8]) -> bool
    ensures { result ≡ is_actor word.now }
{
    0 < word.len() && (word.len() <= 8 && all_small_letters(word))
}

#[tactic(auto, unfolding(crate::specs::Words::is_hexadecimal))]
fn is_hexadecimal(word: &[u8]) -> bool
    ensures { result ≡ is_hexadecimal word.now }
{
    word.starts_with(b"x:")
}

/// The words of a line, which single spaces part.
pub fn split_words(alloc: Global, line: &[u8]) -> Result<Vec<&[u8]>, AllocError>
    ensures { IfOk result (λ words. map (λ w. w.now) words.items ≡ slice_split (λ b. b == 32) line.now) }
{
    line.split(|byte: &u8| *byte == b' ').collect(alloc)
}

#[tactic(auto, unfolding(crate::specs::Words::bytes_of_digits))]
fn bytes_of_digits(alloc: Global, digits: &[u8]) -> Result<Option<Bytes>, NoMemory>
    ensures { IfOk result (λ bytes. bytes ≡ bytes_of_digits digits.now) }
{
    if !all_lower_digits(digits) {
        return Ok(None);
    }
    match hex::decode(alloc, digits) {
        Ok(bytes) => Ok(Some(Bytes::from_slice(alloc, bytes.as_slice())?)),
        Err(FromHexError::OutOfMemory) => Err(NoMemory),
        Err(_) => Ok(None),
    }
}

/// The bytes that a word stands for, where it stands for some.
#[tactic(auto, unfolding(crate::specs::Words::bytes_of_word))]
pub fn bytes_of_word(alloc: Global, word: &[u8]) -> Result<Option<Bytes>, NoMemory>
    ensures { IfOk result (λ bytes. bytes ≡ bytes_of_word word.now) }
{
    if is_hexadecimal(word) {
        bytes_of_digits(alloc, word.split_at(2).1)
    } else {
        Ok(Some(Bytes::from_slice(alloc, word)?))
    }
}

/// Adds bytes as one word.
#[tactic(auto, unfolding(crate::specs::Words::shown))]
pub fn push_shown(alloc: Global, text: &mut Bytes, bytes: &[u8]) -> Result<(), NoMemory>
    ensures { OnOk result (text.new ≡ text.old ++ shown bytes.now) }
{
    if is_word(bytes) && !is_hexadecimal(bytes) {
        text.extend_from_slice(bytes)?;
    } else {
        text.extend_from_slice(b"x:")?;
        let digits = hex::encode(alloc, bytes)?;
        text.extend_from_slice(digits.as_bytes())?;
    }
    Ok(())
}
