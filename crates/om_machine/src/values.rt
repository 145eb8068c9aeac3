//! The values and the conditions of instructions, of two operands each.

ghost use Rattle.std.specs.Prelude.{◌≡◌, nat_eq, nat_lt, not, bit_and, bit_or, bit_xor};
ghost use Rattle.std.specs.Int.{w8, w16};
ghost use Rattle.om_machine.specs.Values.{plus, minus, one_if, is_below_signed, shifted_left, shifted_right, shifted_right_signed, without_bit_0, extended};

pub fn add(a: u32, b: u32) -> u32
    ensures { result ≡ plus a b }
{
    a.wrapping_add(b)
}

pub fn subtract(a: u32, b: u32) -> u32
    ensures { result ≡ minus a b }
{
    a.wrapping_sub(b)
}

pub fn set_less_than(a: u32, b: u32) -> u32
    ensures { result ≡ one_if (is_below_signed a b) }
{
    u32::from(less_than(a, b))
}

pub fn set_less_than_unsigned(a: u32, b: u32) -> u32
    ensures { result ≡ one_if (nat_lt a b) }
{
    u32::from(a < b)
}

pub fn xor(a: u32, b: u32) -> u32
    ensures { result ≡ bit_xor a b }
{
    a ^ b
}

pub fn or(a: u32, b: u32) -> u32
    ensures { result ≡ bit_or a b }
{
    a | b
}

pub fn and(a: u32, b: u32) -> u32
    ensures { result ≡ bit_and a b }
{
    a & b
}

pub fn shift_left_logical(a: u32, b: u32) -> u32
    ensures { result ≡ shifted_left a b }
{
    a.wrapping_shl(b)
}

pub fn shift_right_logical(a: u32, b: u32) -> u32
    ensures { result ≡ shifted_right a b }
{
    a.wrapping_shr(b)
}

pub fn shift_right_arithmetic(a: u32, b: u32) -> u32
    ensures { result ≡ shifted_right_signed a b }
{
    a.cast_signed().wrapping_shr(b).cast_unsigned()
}

pub fn equal(a: u32, b: u32) -> bool
    ensures { result ≡ nat_eq a b }
{
    a == b
}

pub fn not_equal(a: u32, b: u32) -> bool
    ensures { result ≡ not (nat_eq a b) }
{
    a != b
}

pub fn less_than(a: u32, b: u32) -> bool
    ensures { result ≡ is_below_signed a b }
{
    a.cast_signed() < b.cast_signed()
}

pub fn at_least(a: u32, b: u32) -> bool
    ensures { result ≡ not (is_below_signed a b) }
{
    !less_than(a, b)
}

pub fn less_than_unsigned(a: u32, b: u32) -> bool
    ensures { result ≡ nat_lt a b }
{
    a < b
}

pub fn at_least_unsigned(a: u32, b: u32) -> bool
    ensures { result ≡ not (nat_lt a b) }
{
    !less_than_unsigned(a, b)
}

pub fn clear_bit_0(a: u32) -> u32
    ensures { result ≡ without_bit_0 a }
{
    a / 2 * 2
}

pub fn extend_byte(byte: u8) -> u32
    ensures { result ≡ extended w8 byte }
{
    i32::from(byte.cast_signed()).cast_unsigned()
}

pub fn extend_half(half: u16) -> u32
    ensures { result ≡ extended w16 half }
{
    i32::from(half.cast_signed()).cast_unsigned()
}
