//! A report in plain words, one fact a line.
ghost use Rattle.std.specs.Prelude.{◌++◌, Some, codes};
ghost use Rattle.hex_digits.specs.Digits.{word_digits};
ghost use Rattle.inspect.specs.Text.{field_output, reason_text, verdict_text, misuse_text, report_text};

use crate::{Misuse, Reason, Report, Sealed, TooShort};
use hex_digits::{HexByte, HexWord};
use std::error::Error;
use std::fmt;

/// A number in digits, or why there is none; public, so that a caller can show one number alone.
#[derive(Clone, Copy, Debug, PartialEq, Eq)]
pub struct Field<D>(pub Option<D>);

impl<D: fmt::Display> fmt::Display for Field<D> {
    ghost output = { λ x. field_output D.output x.0 };

    fn fmt<W: fmt::Write>(&self, f: &mut fmt::Formatter<W>) -> fmt::Result {
        match &self.0 {
            None => write!(f, "none, the image is too short"),
            Some(digits) => write!(f, "0x{digits}"),
        }
    }
}

impl fmt::Display for Reason {
    ghost output = { λ x. Some (reason_text x) };

    fn fmt<W: fmt::Write>(&self, f: &mut fmt::Formatter<W>) -> fmt::Result {
        match self {
            Reason::NoEntry => write!(f, "the image is too short for an entry"),
            Reason::ErasedEntry => write!(f, "the entry is erased"),
            Reason::WrongSum => write!(f, "the stored sum is wrong"),
        }
    }
}

impl Error for Reason {}

/// Whether an image may be started, in words; public, so that a caller can show one verdict alone.
#[derive(Clone, Copy, Debug, PartialEq, Eq)]
pub struct Verdict(pub Result<(), Reason>);

impl fmt::Display for Verdict {
    ghost output = { λ x. Some (verdict_text x.0) };

    fn fmt<W: fmt::Write>(&self, f: &mut fmt::Formatter<W>) -> fmt::Result {
        match self.0 {
            Ok(()) => write!(f, "yes"),
            Err(why) => write!(f, "no, {why}"),
        }
    }
}

impl fmt::Display for Report {
    ghost output = { λ x. Some (report_text x) };

    fn fmt<W: fmt::Write>(&self, f: &mut fmt::Formatter<W>) -> fmt::Result {
        let length = self.length;
        let ccitt = Field(self.ccitt.map(|sums| HexWord(sums.computed)));
        let stored_ccitt = Field(self.ccitt.map(|sums| HexWord(sums.stored)));
        let crc8 = Field(self.crc8.map(|sums| HexByte(sums.computed)));
        let stored_crc8 = Field(self.crc8.map(|sums| HexByte(sums.stored)));
        let entry = Field(self.entry.map(HexWord));
        let by_ccitt = Verdict(self.verdicts.ccitt);
        let by_crc8 = Verdict(self.verdicts.crc8);
        let by_vector = Verdict(self.verdicts.vector);
        write!(
            f,
            "length in bytes: {length}\n\
             CRC-CCITT sum of all bytes after the first two: {ccitt}\n\
             stored CRC-CCITT sum, the first two bytes: {stored_ccitt}\n\
             CRC-8 sum of all bytes after the first: {crc8}\n\
             stored CRC-8 sum, the first byte: {stored_crc8}\n\
             entry, the last two bytes: {entry}\n\
             may be started, checked by CRC-CCITT: {by_ccitt}\n\
             may be started, checked by CRC-8: {by_crc8}\n\
             may be started, by its entry only: {by_vector}\n"
        )
    }
}

impl fmt::Display for Misuse {
    ghost output = { λ x. Some (misuse_text x) };

    fn fmt<W: fmt::Write>(&self, f: &mut fmt::Formatter<W>) -> fmt::Result {
        match *self {
            Misuse::UnknownWord => write!(
                f,
                "unknown word; write inspect, seal or nothing; nothing was read or written"
            ),
            Misuse::TooManyWords => write!(
                f,
                "one word at most, inspect or seal; nothing was read or written"
            ),
        }
    }
}

impl Error for Misuse {}

impl fmt::Display for Sealed {
    ghost output = { λ x. Some (codes "sealed with the CRC-CCITT sum 0x" ++ word_digits x.0) };

    fn fmt<W: fmt::Write>(&self, f: &mut fmt::Formatter<W>) -> fmt::Result {
        let sum = HexWord(self.0);
        write!(f, "sealed with the CRC-CCITT sum 0x{sum}")
    }
}

impl fmt::Display for TooShort {
    ghost output = { λ _. Some (codes "an image of fewer than two bytes cannot hold a CRC-CCITT sum; it is left as it came") };

    fn fmt<W: fmt::Write>(&self, f: &mut fmt::Formatter<W>) -> fmt::Result {
        write!(
            f,
            "an image of fewer than two bytes cannot hold a CRC-CCITT sum; it is left as it came"
        )
    }
}

impl Error for TooShort {}
