// Numbers in decimal, as names spell them.
ghost use Rattle.std.specs.Prelude.{◌≡◌, ◌<◌, ◌≤◌, ◌^◌, length, Some, ℕ, IfSome, IsTrue};
ghost use Rattle.std.specs.Fmt.{decimal};
ghost use Rattle.lsm_names.specs.Numbers.{padded_decimal, six_digits, is_file_number};

use crate::text::Text;
use std::str;

/// The last number that a file may have: `2^56 - 2`.
pub const LAST_FILE_NUMBER: u64 = (1 << 56) - 2;

/// The digits that a file's number has at least.
pub const FILE_DIGITS: usize = 6;

/// The most digits that a number has.
const DIGIT_LIMIT: usize = 20;

/// The number's decimal digits, behind zeros where they are fewer than `least`.
pub fn padded_decimal(least: usize, number: u64) -> Text<DIGIT_LIMIT>
    requires { least ≤ DIGIT_LIMIT }
    ensures { result ≡ padded_decimal least number }
{
    let mut digits = [b'0'; DIGIT_LIMIT];
    let mut start = DIGIT_LIMIT;
    let mut rest = number;
    while rest >= 10 {
        start -= 1;
        digits[start] = b'0' + (rest % 10) as u8;
        rest /= 10;
    }
    start -= 1;
    digits[start] = b'0' + rest as u8;
    Text::from_slice(&digits[start.min(DIGIT_LIMIT - least)..])
}

/// The number's decimal digits.
pub fn decimal(number: u64) -> Text<DIGIT_LIMIT>
    ensures { result ≡ decimal number }
{
    padded_decimal(0, number)
}

/// The number that a text spells in decimal, with any zeros in front. Of another text it may give any number.
pub fn read_decimal(digits: &[u8]) -> Option<u64>
    ensures { (least number : ℕ) → number < 2 ^ 64 → digits.now ≡ padded_decimal least number
        → result ≡ Some number }
{
    str::from_utf8(digits).ok()?.parse().ok()
}

/// The number of a file that the text spells with six digits or more.
pub fn read_file_number(digits: &[u8]) -> Option<u64>
    ensures number { IfSome result (λ number. IsTrue (is_file_number number)) }
    ensures digits { IfSome result (λ number. digits.now ≡ six_digits number) }
    ensures found { (number : ℕ) → IsTrue (is_file_number number) → digits.now ≡ six_digits number
        → result ≡ Some number }
{
    let number = read_decimal(digits)?;
    if is_file_number(number) && padded_decimal(FILE_DIGITS, number).as_bytes() == digits {
        Some(number)
    } else {
        None
    }
}

/// Whether a file may have this number: 1 to [`LAST_FILE_NUMBER`].
pub fn is_file_number(number: u64) -> bool
    ensures { result ≡ is_file_number number }
{
    1 <= number && number <= LAST_FILE_NUMBER
}
