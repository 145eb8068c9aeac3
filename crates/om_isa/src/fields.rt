//! The fields of an instruction, each a number within its range.

ghost use Rattle.std.specs.Prelude.{◌≡◌, ◌≤◌, ◌≤ℤ◌, ◌↔◌, IsSome, IfSome};
ghost use Rattle.om_isa.specs.Fields.{IsEven};

use std::marker::Model;

/// The number of a register, 0 to 31.
#[derive(Clone, Copy, Debug, PartialEq, Eq)]
pub struct Reg {
    pub(crate) value: u8,
}

impl Model for Reg {
    ghost use Rattle.std.specs.Prelude.{ℕ, ◌≤◌};
    ghost use Rattle.om_isa.specs.declared.fields.TheConstants.Reg.{MAX};

    ghost Value = { ℕ };

    ghost view = { λ r. r.value };

    ghost invariant = { λ r. r.value ≤ MAX };

    ghost inverse = { λ n. record { value = n } };
}

impl Reg {
    /// The greatest value.
    pub const MAX: u8 = 31;

    /// Makes the field with this value, or `None` where it is out of range.
    pub fn new(value: u8) -> Option<Self>
        ensures valid { IsSome result ↔ (value ≤ Self.MAX) }
        ensures value { IfSome result (λ r. r ≡ value) }
    {
        if value <= Self::MAX {
            Some(Reg { value })
        } else {
            None
        }
    }

    /// Returns the value, which is within its range.
    pub fn value(self) -> u8
        ensures value { result ≡ self }
        ensures range { result ≤ Self.MAX }
    {
        self.value
    }
}

/// The signed immediate of the forms I and S, -2048 to 2047.
#[derive(Clone, Copy, Debug, PartialEq, Eq)]
pub struct Imm12 {
    pub(crate) value: i32,
}

impl Model for Imm12 {
    ghost use Rattle.std.specs.Prelude.{ℤ, ◌≤ℤ◌};
    ghost use Rattle.om_isa.specs.declared.fields.TheConstants.Imm12.{MIN, MAX};

    ghost Value = { ℤ };

    ghost view = { λ i. i.value };

    ghost invariant = { λ i. (MIN ≤ℤ i.value) × (i.value ≤ℤ MAX) };

    ghost inverse = { λ z. record { value = z } };
}

impl Imm12 {
    /// The least value.
    pub const MIN: i32 = -2048;

    /// The greatest value.
    pub const MAX: i32 = 2047;

    /// Makes the field with this value, or `None` where it is out of range.
    pub fn new(value: i32) -> Option<Self>
        ensures valid { IsSome result ↔ ((Self.MIN ≤ℤ value) × (value ≤ℤ Self.MAX)) }
        ensures value { IfSome result (λ i. i ≡ value) }
    {
        if Self::MIN <= value && value <= Self::MAX {
            Some(Imm12 { value })
        } else {
            None
        }
    }

    /// Returns the value, which is within its range.
    pub fn value(self) -> i32
        ensures value { result ≡ self }
        ensures least { Self.MIN ≤ℤ result }
        ensures greatest { result ≤ℤ Self.MAX }
    {
        self.value
    }
}

/// The offset of a branch in bytes, an even number from -4096 to 4094.
#[derive(Clone, Copy, Debug, PartialEq, Eq)]
pub struct Off13 {
    pub(crate) value: i32,
}

impl Model for Off13 {
    ghost use Rattle.std.specs.Prelude.{ℤ, ◌≤ℤ◌};
    ghost use Rattle.om_isa.specs.declared.fields.TheConstants.Off13.{MIN, MAX};
    ghost use Rattle.om_isa.specs.Fields.{IsEven};

    ghost Value = { ℤ };

    ghost view = { λ o. o.value };

    ghost invariant = { λ o. (MIN ≤ℤ o.value) × (o.value ≤ℤ MAX) × IsEven o.value };

    ghost inverse = { λ z. record { value = z } };
}

impl Off13 {
    /// The least value.
    pub const MIN: i32 = -4096;

    /// The greatest value.
    pub const MAX: i32 = 4094;

    /// Makes the field with this value, or `None` where it is odd or out of range.
    pub fn new(value: i32) -> Option<Self>
        ensures valid { IsSome result ↔ ((Self.MIN ≤ℤ value) × (value ≤ℤ Self.MAX) × IsEven value) }
        ensures value { IfSome result (λ o. o ≡ value) }
    {
        if Self::MIN <= value && value <= Self::MAX && value.unsigned_abs() % 2 == 0 {
            Some(Off13 { value })
        } else {
            None
        }
    }

    /// Returns the value, which is even and within its range.
    pub fn value(self) -> i32
        ensures value { result ≡ self }
        ensures least { Self.MIN ≤ℤ result }
        ensures greatest { result ≤ℤ Self.MAX }
        ensures even { IsEven result }
    {
        self.value
    }
}

/// The offset of a jump in bytes, an even number from -1,048,576 to 1,048,574.
#[derive(Clone, Copy, Debug, PartialEq, Eq)]
pub struct Off21 {
    pub(crate) value: i32,
}

impl Model for Off21 {
    ghost use Rattle.std.specs.Prelude.{ℤ, ◌≤ℤ◌};
    ghost use Rattle.om_isa.specs.declared.fields.TheConstants.Off21.{MIN, MAX};
    ghost use Rattle.om_isa.specs.Fields.{IsEven};

    ghost Value = { ℤ };

    ghost view = { λ o. o.value };

    ghost invariant = { λ o. (MIN ≤ℤ o.value) × (o.value ≤ℤ MAX) × IsEven o.value };

    ghost inverse = { λ z. record { value = z } };
}

impl Off21 {
    /// The least value.
    pub const MIN: i32 = -1_048_576;

    /// The greatest value.
    pub const MAX: i32 = 1_048_574;

    /// Makes the field with this value, or `None` where it is odd or out of range.
    pub fn new(value: i32) -> Option<Self>
        ensures valid { IsSome result ↔ ((Self.MIN ≤ℤ value) × (value ≤ℤ Self.MAX) × IsEven value) }
        ensures value { IfSome result (λ o. o ≡ value) }
    {
        if Self::MIN <= value && value <= Self::MAX && value.unsigned_abs() % 2 == 0 {
            Some(Off21 { value })
        } else {
            None
        }
    }

    /// Returns the value, which is even and within its range.
    pub fn value(self) -> i32
        ensures value { result ≡ self }
        ensures least { Self.MIN ≤ℤ result }
        ensures greatest { result ≤ℤ Self.MAX }
        ensures even { IsEven result }
    {
        self.value
    }
}

/// The upper 20 bits of a number of 32 bits, 0 to 1,048,575.
#[derive(Clone, Copy, Debug, PartialEq, Eq)]
pub struct Upper {
    pub(crate) value: u32,
}

impl Model for Upper {
    ghost use Rattle.std.specs.Prelude.{ℕ, ◌≤◌};
    ghost use Rattle.om_isa.specs.declared.fields.TheConstants.Upper.{MAX};

    ghost Value = { ℕ };

    ghost view = { λ u. u.value };

    ghost invariant = { λ u. u.value ≤ MAX };

    ghost inverse = { λ n. record { value = n } };
}

impl Upper {
    /// The greatest value.
    pub const MAX: u32 = 1_048_575;

    /// Makes the field with this value, or `None` where it is out of range.
    pub fn new(value: u32) -> Option<Self>
        ensures valid { IsSome result ↔ (value ≤ Self.MAX) }
        ensures value { IfSome result (λ u. u ≡ value) }
    {
        if value <= Self::MAX {
            Some(Upper { value })
        } else {
            None
        }
    }

    /// Returns the value, which is within its range.
    pub fn value(self) -> u32
        ensures value { result ≡ self }
        ensures range { result ≤ Self.MAX }
    {
        self.value
    }
}

/// By how many places a word is shifted, 0 to 31.
#[derive(Clone, Copy, Debug, PartialEq, Eq)]
pub struct Shamt {
    pub(crate) value: u8,
}

impl Model for Shamt {
    ghost use Rattle.std.specs.Prelude.{ℕ, ◌≤◌};
    ghost use Rattle.om_isa.specs.declared.fields.TheConstants.Shamt.{MAX};

    ghost Value = { ℕ };

    ghost view = { λ s. s.value };

    ghost invariant = { λ s. s.value ≤ MAX };

    ghost inverse = { λ n. record { value = n } };
}

impl Shamt {
    /// The greatest value.
    pub const MAX: u8 = 31;

    /// Makes the field with this value, or `None` where it is out of range.
    pub fn new(value: u8) -> Option<Self>
        ensures valid { IsSome result ↔ (value ≤ Self.MAX) }
        ensures value { IfSome result (λ s. s ≡ value) }
    {
        if value <= Self::MAX {
            Some(Shamt { value })
        } else {
            None
        }
    }

    /// Returns the value, which is within its range.
    pub fn value(self) -> u8
        ensures value { result ≡ self }
        ensures range { result ≤ Self.MAX }
    {
        self.value
    }
}

/// Bits 31:20 of a fence, 0 to 4095: its mode and the two sets of accesses that it orders.
#[derive(Clone, Copy, Debug, PartialEq, Eq)]
pub struct FenceBits {
    pub(crate) value: u16,
}

impl Model for FenceBits {
    ghost use Rattle.std.specs.Prelude.{ℕ, ◌≤◌};
    ghost use Rattle.om_isa.specs.declared.fields.TheConstants.FenceBits.{MAX};

    ghost Value = { ℕ };

    ghost view = { λ f. f.value };

    ghost invariant = { λ f. f.value ≤ MAX };

    ghost inverse = { λ n. record { value = n } };
}

impl FenceBits {
    /// The greatest value.
    pub const MAX: u16 = 4095;

    /// Makes the field with this value, or `None` where it is out of range.
    pub fn new(value: u16) -> Option<Self>
        ensures valid { IsSome result ↔ (value ≤ Self.MAX) }
        ensures value { IfSome result (λ f. f ≡ value) }
    {
        if value <= Self::MAX {
            Some(FenceBits { value })
        } else {
            None
        }
    }

    /// Returns the value, which is within its range.
    pub fn value(self) -> u16
        ensures value { result ≡ self }
        ensures range { result ≤ Self.MAX }
    {
        self.value
    }
}
