//! The values of multiplications and divisions, of two operands each.

ghost use Rattle.std.specs.Prelude.{◌≡◌};
ghost use Rattle.om_machine.specs.Values.{high_bits, product_low, product_high, product_high_signed_unsigned, product_high_unsigned, quotient, quotient_unsigned, rest, rest_unsigned};

pub fn multiply(a: u32, b: u32) -> u32
    ensures { result ≡ product_low a b }
{
    a.wrapping_mul(b)
}

// Returns the high 32 bits of a product.
fn high(product: i64) -> u32
    ensures { result ≡ high_bits product }
{
    ((product >> 32) as i32).cast_unsigned()
}

pub fn multiply_high(a: u32, b: u32) -> u32
    ensures { result ≡ product_high a b }
{
    high(i64::from(a.cast_signed()) * i64::from(b.cast_signed()))
}

pub fn multiply_high_signed_unsigned(a: u32, b: u32) -> u32
    ensures { result ≡ product_high_signed_unsigned a b }
{
    high(i64::from(a.cast_signed()) * i64::from(b))
}

pub fn multiply_high_unsigned(a: u32, b: u32) -> u32
    ensures { result ≡ product_high_unsigned a b }
{
    ((u64::from(a) * u64::from(b)) >> 32) as u32
}

pub fn divide(a: u32, b: u32) -> u32
    ensures { result ≡ quotient a b }
{
    if b == 0 {
        u32::MAX
    } else {
        a.cast_signed()
            .wrapping_div(b.cast_signed())
            .cast_unsigned()
    }
}

pub fn divide_unsigned(a: u32, b: u32) -> u32
    ensures { result ≡ quotient_unsigned a b }
{
    if b == 0 { u32::MAX } else { a / b }
}

pub fn remainder(a: u32, b: u32) -> u32
    ensures { result ≡ rest a b }
{
    if b == 0 {
        a
    } else {
        a.cast_signed()
            .wrapping_rem(b.cast_signed())
            .cast_unsigned()
    }
}

pub fn remainder_unsigned(a: u32, b: u32) -> u32
    ensures { result ≡ rest_unsigned a b }
{
    if b == 0 { a } else { a % b }
}
