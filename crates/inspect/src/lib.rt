//! What there is to tell of an application image, and an image with its stored sum put right.
#![tactic(auto)]

ghost use Rattle.std.specs.Prelude.{◌≡◌, fold};
ghost use Rattle.image.specs.Check.{accepted};
ghost use Rattle.inspect.specs.Facts.{sums_of, verdict, report, Judged};
ghost use Rattle.inspect.specs.Seal.{Seals};
ghost use Rattle.inspect.specs.Task.{NamesATask};

use crc::{Checksum, Crc8, CrcCcitt};
use image::{CcittCheck, Crc8Check, ERASED, ImageCheck, Stored, SumCheck, VectorOnly};
use std::str::FromStr;

mod text;

pub use text::{Field, Verdict};

/// A sum as worked out over the bytes that it covers, and as the image stores it.
#[derive(Clone, Copy, Debug, PartialEq, Eq)]
pub struct Sums<R> {
    pub computed: R,
    pub stored: R,
}

/// Why an image may not be started.
#[derive(Clone, Copy, Debug, PartialEq, Eq)]
pub enum Reason {
    NoEntry,
    ErasedEntry,
    WrongSum,
}

/// Whether an image may be started under each of the three checks.
#[derive(Clone, Copy, Debug, PartialEq, Eq)]
pub struct Verdicts {
    pub ccitt: Result<(), Reason>,
    pub crc8: Result<(), Reason>,
    pub vector: Result<(), Reason>,
}

/// What there is to tell of an image; its sums and its entry are None where it is too short for them.
#[derive(Clone, Copy, Debug, PartialEq, Eq)]
pub struct Report {
    pub length: usize,
    pub ccitt: Option<Sums<u16>>,
    pub crc8: Option<Sums<u8>>,
    pub entry: Option<u16>,
    pub verdicts: Verdicts,
}

/// What can be asked for.
#[derive(Clone, Copy, Debug, PartialEq, Eq)]
pub enum Task {
    Inspect,
    Seal,
}

/// Words that name no task.
#[derive(Clone, Copy, Debug, PartialEq, Eq)]
pub enum Misuse {
    UnknownWord,
    TooManyWords,
}

/// The sum that an image was sealed with.
#[derive(Clone, Copy, Debug, PartialEq, Eq)]
pub struct Sealed(pub u16);

/// An image of fewer than two bytes has no room for a stored CRC-CCITT sum.
#[derive(Clone, Copy, Debug, PartialEq, Eq)]
pub struct TooShort;

impl FromStr for Task {
    type Err = Misuse;

    ghost from_str_gives = { NamesATask };

    fn from_str(word: &str) -> Result<Task, Misuse> {
        match word {
            "inspect" => Ok(Task::Inspect),
            "seal" => Ok(Task::Seal),
            _ => Err(Misuse::UnknownWord),
        }
    }
}

/// The sums of an image by a checksum; None where it is shorter than its stored sum.
pub fn sums_of<S: Checksum<Register: Stored>>(image: &[u8]) -> Option<Sums<S::Register>>
    ensures { result ≡ sums_of S.Register.LENGTH S.Register.number (fold S.steps S.START) image.now }
{
    let (stored, covered) = image::split_sum::<SumCheck<S>>(image)?;
    // As in `image::accepts`, a closure stands where the prover does not take a bound's method by its name.
    Some(Sums {
        computed: crc::sum::<S>(covered),
        stored: stored
            .iter()
            .copied()
            .fold(<S::Register>::ZERO, |sum, byte| sum.push(byte)),
    })
}

/// Whether a controller with this check may start the image, and why not.
pub fn judge<C: ImageCheck>(image: &[u8]) -> Result<(), Reason>
    ensures { result ≡ verdict (accepted C.ImageCheck.check) image.now }
{
    if image::startable::<C>(image) {
        return Ok(());
    }
    match image::entry(image) {
        None => Err(Reason::NoEntry),
        Some(ERASED) => Err(Reason::ErasedEntry),
        Some(_) => Err(Reason::WrongSum),
    }
}

/// All there is to tell of an image.
pub fn inspect(image: &[u8]) -> Report
    ensures told { result ≡ report image.now }
    ensures judged { Judged image.now result.verdicts }
{
    Report {
        length: image.len(),
        ccitt: sums_of::<CrcCcitt>(image),
        crc8: sums_of::<Crc8>(image),
        entry: image::entry(image),
        verdicts: Verdicts {
            ccitt: judge::<CcittCheck>(image),
            crc8: judge::<Crc8Check>(image),
            vector: judge::<VectorOnly>(image),
        },
    }
}

/// Puts the stored CRC-CCITT sum right, and tells it.
pub fn seal(image: &mut [u8]) -> Result<Sealed, TooShort>
    ensures { Seals image.old image.new result }
{
    let (stored, covered) = image.split_first_chunk_mut::<2>().ok_or(TooShort)?;
    let sum = crc::sum::<CrcCcitt>(covered);
    // By two names: here a must-fail edit stores one of them twice.
    let [low, high] = sum.to_le_bytes();
    *stored = [low, high];
    Ok(Sealed(sum))
}
