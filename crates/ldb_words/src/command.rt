//! The words of the command.
ghost use Rattle.std.specs.Prelude.{◌≡◌, Option, Some, None, map, string_bytes};
ghost use Rattle.std.specs.List.{list_all};
ghost use Rattle.std.specs.Option.{option_map};
ghost use Rattle.ldb_words.specs.Words.{is_printable, is_word, is_plain_word, some_words, command_in};
ghost use Rattle.ldb_words.specs.Reading.{texts};

use crate::options::is_hyphened;

#[tactic(auto, unfolding(crate::specs::Words::is_printable))]
fn is_printable(byte: u8) -> bool
    ensures { result ≡ is_printable byte }
{
    (0x21 <= byte) && (byte <= 0x7E)
}

fn all_printable(bytes: &[u8]) -> bool
    ensures { result ≡ list_all is_printable bytes.now }
{
    for byte in bytes {
        if !is_printable(*byte) {
            return false;
        }
    }
    true
}

#[tactic(auto, unfolding(crate::specs::Words::is_word))]
fn is_word(word: &str) -> bool
    ensures { result ≡ is_word word.now }
{
    !word.is_empty() && all_printable(word.as_bytes())
}

#[tactic(auto, unfolding(crate::specs::Words::is_plain_word))]
fn is_plain_word(word: &str) -> bool
    ensures { result ≡ is_plain_word word.now }
{
    is_word(word) && !is_hyphened(word)
}

// Words of which any may begin with a hyphen.
fn some_words(words: &[String]) -> Option<&[String]>
    ensures { option_map (λ command. texts command.now) result ≡ some_words is_word (texts words.now) }
{
    for word in words {
        if !is_word(word.as_str()) {
            return None;
        }
    }
    if words.is_empty() { None } else { Some(words) }
}

// Words of which none begins with a hyphen.
fn some_plain_words(words: &[String]) -> Option<&[String]>
    ensures { option_map (λ command. texts command.now) result ≡ some_words is_plain_word (texts words.now) }
{
    for word in words {
        if !is_plain_word(word.as_str()) {
            return None;
        }
    }
    if words.is_empty() { None } else { Some(words) }
}

/// The words of the command, behind one `--` where it is there.
#[tactic(auto, unfolding(crate::specs::Words::command_in))]
pub(crate) fn command_in(words: &[String]) -> Option<&[String]>
    ensures { option_map (λ command. texts command.now) result ≡ command_in (texts words.now) }
{
    let (first, more) = words.split_first()?;
    if first.as_str() == "--" {
        some_words(more)
    } else {
        some_plain_words(words)
    }
}
