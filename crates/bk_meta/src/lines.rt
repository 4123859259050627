//! The lines of a text.
ghost use Rattle.std.specs.Prelude.{◌≡◌, Option, Some, None, Ok, IfOk, IfErr};
ghost use Rattle.std.specs.Option.{option_map};
ghost use Rattle.bk_meta.specs.Lines.{cut_at, line_at, IsBad};

use crate::errors::{MetaError, MetaWhy};

/// What stands before the first such byte, and what stands behind it.
pub fn cut_at(mark: u8, text: &[u8]) -> Option<(&[u8], &[u8])>
    ensures { option_map (λ parts. (parts.0.now, parts.1.now)) result ≡ cut_at mark text.now }
{
    let at = text.iter().position(|byte| *byte == mark)?;
    Some((&text[..at], &text[at + 1..]))
}

/// The line at hand, which has this number, and the text behind it.
pub fn line_at(number: u32, text: &[u8]) -> Result<(&[u8], &[u8]), MetaError>
    ensures ok { IfOk result (λ parts. line_at number text.now ≡ Ok (parts.0.now, parts.1.now)) }
    ensures bad { IfErr result (IsBad (line_at number text.now)) }
{
    match cut_at(b'\n', text) {
        Some(parts) => Ok(parts),
        None => Err(MetaError::BadMeta {
            line: number,
            why: MetaWhy::Ending,
        }),
    }
}
