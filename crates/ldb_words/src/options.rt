//! The options that words begin with.
ghost use Rattle.std.specs.Prelude.{◌≡◌};
ghost use Rattle.ldb_words.specs.Words.{
  is_option,
  is_hyphened,
  is_value,
  is_right,
  options_of,
  behind_options,
  is_given,
  are_right,
};
ghost use Rattle.ldb_words.specs.Parts.{LeadsWith, SplitsAt};
ghost use Rattle.ldb_words.specs.Reading.{texts};

use lsm_names::Folder;

#[tactic(auto, unfolding(crate::specs::Words::is_option))]
fn is_option(word: &str) -> bool
    ensures { result ≡ is_option word.now }
{
    word == "--disk" || word == "--backups" || word == "--db"
}

#[tactic(auto, unfolding(crate::specs::Words::is_hyphened))]
pub(crate) fn is_hyphened(word: &str) -> bool
    ensures { result ≡ is_hyphened word.now }
{
    match word.as_bytes() {
        [first, ..] => *first == b'-',
        [] => false,
    }
}

#[tactic(auto, unfolding(crate::specs::Words::is_value))]
fn is_value(word: &str) -> bool
    ensures { result ≡ is_value word.now }
{
    !word.is_empty() && !is_hyphened(word)
}

#[tactic(auto, unfolding(crate::specs::Words::is_right))]
fn is_right(name: &str, value: &str) -> bool
    ensures { result ≡ is_right (name.now, value.now) }
{
    is_value(value) && (name != "--db" || Folder::parse(value.as_bytes()).is_ok())
}

// The option that the words begin with, and the words behind it.
fn first_option(words: &[String]) -> Option<(&str, &str, &[String])>
    ensures { LeadsWith words.now result }
{
    let Some((name, rest)) = words.split_first() else {
        return None;
    };
    let Some((value, more)) = rest.split_first() else {
        return None;
    };
    if is_option(name.as_str()) {
        Some((name.as_str(), value.as_str(), more))
    } else {
        None
    }
}

// Whether an option of this name is among those that the words begin with.
fn is_given(name: &str, words: &[String]) -> bool
    ensures { result ≡ is_given name.now (options_of (texts words.now)) }
{
    let mut rest = words;
    while let Some((first, _, more)) = first_option(rest) {
        if first == name {
            return true;
        }
        rest = more;
    }
    false
}

/// How many of the words are options, where each is right and given once.
pub(crate) fn options_len(words: &[String]) -> Option<usize>
    ensures { SplitsAt words.now result }
{
    let mut rest = words;
    while let Some((name, value, more)) = first_option(rest) {
        if !is_right(name, value) || is_given(name, more) {
            return None;
        }
        rest = more;
    }
    Some(words.len() - rest.len())
}
