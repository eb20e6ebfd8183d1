//! Numbers in upper-case hexadecimal digits.
#![tactic(auto)]

ghost use Rattle.std.specs.Prelude.{◌≡◌, ℕ, ◌+◌, ◌/◌, ◌%◌, ◌<◌, Some};
ghost use Rattle.hex_digits.specs.Digits.{digit as the_digit, byte_digits, word_digits};

use std::fmt;

/// The character of the digit that a number's lowest four bits make. The library's `from_digit` gives an Option and lower case.
pub fn digit(nibble: u8) -> char
    ensures { result ≡ the_digit (nibble % 16) }
{
    let n = nibble % 16;
    if n < 10 {
        char::from(b'0' + n)
    } else {
        char::from(b'A' + (n - 10))
    }
}

/// A byte, written as two digits.
#[derive(Clone, Copy, Debug, PartialEq, Eq)]
pub struct HexByte(pub u8);

impl fmt::Display for HexByte {
    ghost output = { λ x. Some (byte_digits x.0) };

    #[tactic(auto, using(std::proofs::lemmas::Fmt::hex_byte))]
    fn fmt<W: fmt::Write>(&self, f: &mut fmt::Formatter<W>) -> fmt::Result {
        let byte = self.0;
        write!(f, "{byte:02X}")
    }
}

/// A number of 16 bits, written as four digits. One type for both would need a trait with the digits and the width of each, which is longer.
#[derive(Clone, Copy, Debug, PartialEq, Eq)]
pub struct HexWord(pub u16);

impl fmt::Display for HexWord {
    ghost output = { λ x. Some (word_digits x.0) };

    #[tactic(auto, using(crate::proofs::Padded::word_padded))]
    fn fmt<W: fmt::Write>(&self, f: &mut fmt::Formatter<W>) -> fmt::Result {
        let word = self.0;
        write!(f, "{word:04X}")
    }
}
