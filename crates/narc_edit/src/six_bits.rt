//! Numbers of six bits.
ghost use Rattle.std.specs.Prelude.{◌≡◌, ◌<◌};

use std::marker::Model;

/// A number below 64: the flags of TCP, or its reserved bits.
#[derive(Clone, Copy, Debug, Drop, PartialEq, Eq)]
pub struct SixBits {
    bits: u8,
}

impl Model for SixBits {
    ghost use Rattle.std.specs.Prelude.{ℕ, ◌<◌};

    ghost Value = { ℕ };

    ghost view = { λ s. s.bits };

    ghost invariant = { λ s. s.bits < 64 };

    ghost inverse = { λ n. record { bits = n } };
}

impl SixBits {
    /// A number that has six bits.
    pub fn new(bits: u8) -> SixBits
        requires { bits < 64 }
        ensures { result ≡ bits }
    {
        SixBits { bits }
    }

    /// The number.
    pub fn get(self) -> u8
        ensures value { result ≡ self }
        ensures bound { result < 64 }
    {
        self.bits
    }
}
