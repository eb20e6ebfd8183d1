//! How an image stores a sum: in as many bytes as the sum's register has, the low one first.
ghost use Rattle.std.specs.Prelude.{◌≡◌, ℕ, ◌<◌, List, length, fold};
ghost use Rattle.image.specs.Sums.{pushed, number as the_number};
ghost use Rattle.image.specs.Reading.{reads as bytes_are_read};
ghost use Rattle.std.proofs.Common.{rules};

/// A register that can be read from its stored bytes, one at a time.
pub trait Stored: Copy + PartialEq {
    /// How many bytes are stored.
    const LENGTH: usize;

    /// What stands in the register before the first of them.
    const ZERO: Self;

    ghost LENGTH: { ℕ };

    ghost ZERO: { Self };

    ghost push: { Self → ℕ → Self };

    // The number that a list of bytes is, the low one first.
    ghost number: { List ℕ → Self };

    /// The next stored byte comes in at the top, and those before it move down.
    fn push(self, byte: u8) -> Self
        ensures { result ≡ push self byte };

    // A stored sum has one byte at least.
    ghost not_empty: { 0 < LENGTH };

    // All stored bytes, taken in from the low one up, make the number that they are.
    ghost reads: { (bytes : List ℕ) → length bytes ≡ LENGTH → fold push ZERO bytes ≡ number bytes };
}

impl Stored for u8 {
    const LENGTH: usize = 1;

    const ZERO: u8 = 0;

    ghost LENGTH = { 1 };

    ghost ZERO = { 0 };

    ghost push = { pushed 1 };

    ghost number = { the_number };

    ghost not_empty = { Prim.search rules };

    ghost reads = { bytes_are_read 1 };

    fn push(self, byte: u8) -> u8 {
        byte
    }
}

impl Stored for u16 {
    const LENGTH: usize = 2;

    const ZERO: u16 = 0;

    ghost LENGTH = { 2 };

    ghost ZERO = { 0 };

    ghost push = { pushed 2 };

    ghost number = { the_number };

    ghost not_empty = { Prim.search rules };

    ghost reads = { bytes_are_read 2 };

    fn push(self, byte: u8) -> u16 {
        (self >> 8) | (u16::from(byte) << 8)
    }
}
