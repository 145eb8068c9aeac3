//! The instructions that a program may use.

ghost use Rattle.std.specs.Prelude.{◌≡◌};
ghost use Rattle.om_isa.specs.Rows.{has};

/// The instructions that a program may use.
#[derive(Clone, Copy, Debug, PartialEq, Eq)]
pub enum Ext {
    /// The base instructions alone, RV32I.
    I,
    /// The base instructions and those of multiplication and division, RV32IM.
    Im,
}

impl Ext {
    // Returns whether a program of this extension may use the instructions of another.
    #[inline(always)]
    pub(crate) fn has(self, other: Ext) -> bool
        ensures { result ≡ has self other }
    {
        other == Ext::I || self == Ext::Im
    }
}
