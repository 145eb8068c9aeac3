//! Words that stand for numbers.

ghost use Rattle.std.specs.Prelude.{◌≡◌, ◌≤◌, ◌+◌, ◌*◌, ◌^◌, Some, None, if◌then◌else◌};
ghost use Rattle.std.specs.Str.Parse.{digits_value};
ghost use Rattle.om_text.specs.Numbers.{are_digits, below, hex_word, long_number_of, number_of};

// How many hexadecimal digits a word of the machine has.
const HEX_WORD_DIGITS: usize = 8;

/// Reads a number in decimal digits, below 2^32: with any number of leading zeros, and no sign.
pub fn number_of(word: &[u8]) -> Option<u32>
    ensures { result ≡ number_of word.now }
{
    narrow(long_number_of(word)?)
}

/// Reads a number in decimal digits, below 2^64: with any number of leading zeros, and no sign.
pub fn long_number_of(word: &[u8]) -> Option<u64>
    ensures { result ≡ long_number_of word.now }
{
    if word.is_empty() {
        return None;
    }
    value_of(word, 10)
}

/// Reads a word of the machine in eight hexadecimal digits, in either case.
pub fn hex_word(word: &[u8]) -> Option<u32>
    ensures { result ≡ hex_word word.now }
{
    if word.len() != HEX_WORD_DIGITS {
        return None;
    }
    narrow(value_of(word, 16)?)
}

// Returns the number, where it is below 2^32.
fn narrow(number: u64) -> Option<u32>
    ensures { result ≡ below (2 ^ 32) (Some number) }
{
    u32::try_from(number).ok()
}

// Returns what the digits write, where they are digits and that is below 2^64.
fn value_of(word: &[u8], radix: u32) -> Option<u64>
    requires least { 2 ≤ radix }
    requires most { radix ≤ 16 }
    ensures { result ≡ (if are_digits radix word.now
        then below (2 ^ 64) (Some (digits_value radix word.now)) else None) }
{
    let mut value = 0;
    for byte in word {
        let digit = char::from(*byte).to_digit(radix)?;
        value = with_digit(value, radix, digit)?;
    }
    Some(value)
}

// Returns what the digits write with one more of them, where that is below 2^64.
fn with_digit(value: u64, radix: u32, digit: u32) -> Option<u64>
    ensures { result ≡ below (2 ^ 64) (Some (value * radix + digit)) }
{
    value
        .checked_mul(u64::from(radix))?
        .checked_add(u64::from(digit))
}
