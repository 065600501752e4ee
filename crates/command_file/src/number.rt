//! Words that are numbers.

ghost use Rattle.std.specs.Prelude.{◌≡◌, ◌≤◌, length, IsTrue};
ghost use Rattle.command_file.specs.Text.{number_of, is_digit, is_digits, len_is_1_to, digits_value};

/// The maximum number of digits of a number.
const MAX_DIGITS: usize = 20;

/// The number of digits with which any value is below 2^64.
const FEW_DIGITS: usize = 19;

/// A number: 1 to 20 decimal digits with a value below 2^64.
pub fn number_of(word: &[u8]) -> Option<u64>
    ensures { result ≡ number_of word.now }
{
    if word.len() <= FEW_DIGITS {
        return short_number(word);
    }
    if !is_digits(word) {
        return None;
    }
    u64::try_from(value(word)).ok()
}

/// Whether a word is 1 to 20 decimal digits.
fn is_digits(word: &[u8]) -> bool
    ensures { result ≡ is_digits word.now }
{
    let sized = len_is_1_to(MAX_DIGITS, word);
    let digits = word.iter().all(|b| is_digit(*b));
    sized && digits
}

/// Whether a word has 1 to `most` bytes.
pub fn len_is_1_to(most: usize, word: &[u8]) -> bool
    ensures { result ≡ len_is_1_to most word.now }
{
    !word.is_empty() && word.len() <= most
}

/// The value of digits, most significant first.
fn value(digits: &[u8]) -> u128
    requires { IsTrue (is_digits digits.now) }
    ensures { result ≡ digits_value digits.now }
{
    let mut value = 0u128;
    for digit in digits {
        value = value * 10 + u128::from(*digit - b'0');
    }
    value
}

/// The number in a word with at most `FEW_DIGITS` bytes: each byte is tested and counted in one pass.
fn short_number(word: &[u8]) -> Option<u64>
    requires { length word.now ≤ 19 }
    ensures { result ≡ number_of word.now }
{
    if word.is_empty() {
        return None;
    }
    let mut value = 0u64;
    for digit in word {
        if !is_digit(*digit) {
            return None;
        }
        value = value * 10 + u64::from(*digit - b'0');
    }
    Some(value)
}

fn is_digit(byte: u8) -> bool
    ensures { result ≡ is_digit byte }
{
    matches!(byte, b'0'..=b'9')
}
