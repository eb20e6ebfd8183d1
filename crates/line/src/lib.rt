//! The lines that a bench writes: how each event of its script came out.
#![tactic(auto)]

ghost use Rattle.std.specs.Prelude.{◌≡◌, ◌+◌, ◌≤◌, ◌%◌, [], ◌∷◌, ◌++◌, length, decimal, IfOk, IsOk, Some, is_ok, if◌then◌else◌};
ghost use Rattle.std.specs.Vec.{vec_capacity};
ghost use Rattle.hex_digits.specs.Digits.{digit as the_digit};
ghost use Rattle.line.specs.One.{letter as the_letter, value as the_value, line_bytes};
ghost use Rattle.line.specs.Every.{lines_from};

use arrayvec::ArrayVec;
use hex_digits::HexByte;
use std::alloc::{AllocError, Global};
use std::fmt;
use words::{Outcome, Phase, Refusal, Reply, Success, Turn};

// The letter that says how an event came out. No restart chooses to wait.
fn letter(outcome: Outcome<Reply>) -> u8
    ensures { result ∷ [] ≡ the_letter outcome }
{
    match outcome {
        Ok(Success::Said(None)) => b'N',
        Ok(Success::Said(Some(_))) => b'A',
        Ok(Success::Chose(Phase::Waiting)) => b'W',
        Ok(Success::Chose(Phase::Listening)) => b'L',
        Ok(Success::Chose(Phase::Running)) => b'S',
        Err(_) => b'R',
    }
}

// The byte that goes with the letter.
fn value(outcome: Outcome<Reply>) -> u8
    ensures { result ≡ the_value outcome }
{
    match outcome {
        Ok(Success::Said(Some(answer))) => answer.into(),
        Ok(Success::Said(None) | Success::Chose(_)) => 0,
        Err(why) => why.number(),
    }
}

/// The number of an event, and how it came out.
#[derive(Clone, Copy, Debug, PartialEq, Eq)]
pub struct Line {
    pub number: usize,
    pub outcome: Outcome<Reply>,
}

impl fmt::Display for Line {
    ghost output = { λ x. Some (line_bytes x.number x.outcome) };

    fn fmt<W: fmt::Write>(&self, f: &mut fmt::Formatter<W>) -> fmt::Result {
        let number = self.number;
        let letter = char::from(letter(self.outcome));
        let value = HexByte(value(self.outcome));
        writeln!(f, "{number} {letter} {value}")
    }
}

// The byte of a hexadecimal digit.
fn digit(nibble: u8) -> u8
    ensures { result ≡ the_digit (nibble % 16) }
{
    hex_digits::digit(nibble) as u8
}

// Appends the decimal digits of a number, for which there is room.
fn append_decimal(line: &mut ArrayVec<u8, 26>, number: usize)
    requires { length line.old.items + length (decimal number) ≤ 26 }
    ensures { line.new.items ≡ line.old.items ++ decimal number }
{
    if number >= 10 {
        append_decimal(line, number / 10);
    }
    line.push(b'0' + (number % 10) as u8);
}

/// Appends the line of an event. After an error the bytes are as they were; where they have room for the line, there is none.
/// The line is made by hand, in 26 bytes, which are 20 digits and six more: by the `Display` of a `Line` it would take memory of its own, or,
/// in fixed memory, two fifths more time.
pub fn append(bytes: &mut Vec<u8>, number: usize, outcome: Outcome<Reply>) -> Result<(), AllocError>
    ensures room { length bytes.old.items + length (line_bytes number outcome) ≤ vec_capacity bytes.old → IsOk result }
    ensures appended { bytes.new.items ≡ (if is_ok result then bytes.old.items ++ line_bytes number outcome else bytes.old.items) }
{
    let mut line: ArrayVec<u8, 26> = ArrayVec::new();
    append_decimal(&mut line, number);
    let value = value(outcome);
    // This never fails, since there is room.
    let _ = line.try_extend_from_slice(&[
        b' ',
        letter(outcome),
        b' ',
        digit(value / 16),
        digit(value),
        b'\n',
    ]);
    bytes.extend_from_slice(line.as_slice())
}

/// The lines of a script that was played: one for each turn, up to the first that was not played, and one for the refusal of its ending.
pub fn lines(
    alloc: Global,
    turns: &[Turn<u8, Reply>],
    ending: Result<(), Refusal>,
) -> Result<Vec<u8>, AllocError>
    ensures { IfOk result (λ v. v.items ≡ lines_from 1 turns.now ending) }
{
    let mut bytes = Vec::new(alloc);
    // Counted from zero: a range `1..` beside the turns would end at the largest number.
    for (index, turn) in turns.iter().enumerate() {
        let Some(outcome) = turn.outcome else {
            return Ok(bytes);
        };
        append(&mut bytes, index + 1, outcome)?;
    }
    if let Err(why) = ending {
        append(&mut bytes, turns.len() + 1, Err(why))?;
    }
    Ok(bytes)
}
