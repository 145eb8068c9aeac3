//! Rows of memory, and which of them are zeros.

ghost use Rattle.std.specs.Prelude.{◌≡◌, ◌==◌, ◌<◌, length, map};
ghost use Rattle.std.specs.List.{list_all};
ghost use Rattle.om_folding.specs.Folding.{is_address_digit, is_zero_at, is_zero_row, repeats, repeats_on};

/// How many hexadecimal digits an address has.
pub const ADDRESS_DIGITS: usize = 8;

fn is_address_digit(byte: u8) -> bool
    ensures { result ≡ is_address_digit byte }
{
    matches!(byte, b'0'..=b'9' | b'a'..=b'f')
}

// Returns whether these are digits of an address.
fn are_address_digits(bytes: &[u8]) -> bool
    ensures { result ≡ list_all is_address_digit bytes.now }
{
    bytes.iter().all(|byte| is_address_digit(*byte))
}

// Returns whether these are zeros.
fn are_zeros(digits: &[u8]) -> bool
    ensures { result ≡ list_all (λ byte. byte == 48) digits.now }
{
    digits.iter().all(|byte| *byte == b'0')
}

// Returns whether a line is an address and zeros.
fn is_zero_row(line: &[u8]) -> bool
    ensures { result ≡ is_zero_row line.now }
{
    line.len() > ADDRESS_DIGITS + 1
        && line[ADDRESS_DIGITS] == b' '
        && are_address_digits(&line[..ADDRESS_DIGITS])
        && are_zeros(&line[ADDRESS_DIGITS + 1..])
}

// Returns whether the line of a number is one.
fn is_zero_at(lines: &[&[u8]], k: usize) -> bool
    requires { k < length lines.now }
    ensures { result ≡ is_zero_at (map (λ line. line.now) lines.now) k }
{
    is_zero_row(lines[k])
}

// Returns whether a line is a row of zeros, and the one before it is another.
pub(crate) fn repeats(lines: &[&[u8]], k: usize) -> bool
    requires { k < length lines.now }
    ensures { result ≡ repeats (map (λ line. line.now) lines.now) k }
{
    k > 0 && is_zero_at(lines, k) && is_zero_at(lines, k - 1)
}

// Returns whether so is the one before it.
pub(crate) fn repeats_on(lines: &[&[u8]], k: usize) -> bool
    requires { k < length lines.now }
    ensures { result ≡ repeats_on (map (λ line. line.now) lines.now) k }
{
    repeats(lines, k) && repeats(lines, k.saturating_sub(1))
}
