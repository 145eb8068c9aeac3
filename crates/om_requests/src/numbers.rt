//! Numbers as packets have them.

ghost use Rattle.std.specs.Prelude.{◌≡◌, ◌+◌, ◌*◌, ◌^◌, Some, None, if◌then◌else◌};
ghost use Rattle.std.specs.Str.Parse.{digits_value};
ghost use Rattle.om_requests.specs.Numbers.{hex_number};
ghost use Rattle.om_text.specs.Numbers.{are_digits, below};

/// Reads a number below 2^32 in hexadecimal digits, in either case: with any number of leading zeros, and no
/// sign.
pub fn hex_number(word: &[u8]) -> Option<u32>
    ensures { result ≡ hex_number word.now }
{
    if word.is_empty() {
        return None;
    }
    value_of(word)
}

// Returns what the digits write, where they are digits and that is below 2^32.
fn value_of(word: &[u8]) -> Option<u32>
    ensures { result ≡ (if are_digits 16 word.now
        then below (2 ^ 32) (Some (digits_value 16 word.now)) else None) }
{
    let mut value = 0;
    for byte in word {
        let digit = char::from(*byte).to_digit(16)?;
        value = with_digit(value, digit)?;
    }
    Some(value)
}

// Returns what the digits write with one more of them, where that is below 2^32.
fn with_digit(value: u32, digit: u32) -> Option<u32>
    ensures { result ≡ below (2 ^ 32) (Some (value * 16 + digit)) }
{
    value.checked_mul(16)?.checked_add(digit)
}
