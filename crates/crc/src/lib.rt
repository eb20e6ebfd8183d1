//! Checksums by a shift register: CRC-CCITT and CRC-8, each by a table whose rule is the register's.
#![tactic(auto)]

ghost use Rattle.std.specs.Prelude.{◌≡◌, ℕ, fold};
ghost use Rattle.crc.specs.Register.{Linear};

mod ccitt;
mod crc8;

pub use ccitt::CrcCcitt;
pub use crc8::Crc8;

/// A checksum is known by where its register starts and by what a byte does to it.
pub trait Checksum {
    type Register;

    ghost START: { Self.Register };

    ghost steps: { Self.Register → ℕ → Self.Register };

    /// What stands in the register before the first byte. No constant, which could not be made by a call: a register that only its own
    /// crate can make has a start too.
    fn start() -> Self::Register
        ensures { result ≡ START };

    fn step(register: Self::Register, byte: u8) -> Self::Register
        ensures { result ≡ steps register byte };
}

/// The sum of all bytes, in their order.
pub fn sum<S: Checksum>(bytes: &[u8]) -> S::Register
    ensures { result ≡ fold S.Checksum.steps S.Checksum.START bytes.now }
{
    // The step stands in a closure: the prover does not take a bound's method by its name.
    bytes
        .iter()
        .copied()
        .fold(S::start(), |register, byte| S::step(register, byte))
}

/// The register's laws, at every width: linear over XOR, and what becomes of its low part.
pub fn register_is_linear()
    ensures { Linear }
{}
