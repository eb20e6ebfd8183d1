//! An image whose first two bytes, low byte first, are the CRC-CCITT sum of all later bytes.
ghost use Rattle.image.specs.Sums.{ccitt_check};

use crate::{ImageCheck, SumCheck, SumState};
use crc::CrcCcitt;

/// The check by a stored CRC-CCITT sum. It is the check by its checksum; as a type of its own it is a value that a caller can hold, and its
/// length of stored sum is a constant that a caller can compute with.
#[derive(Clone, Copy, Debug)]
pub struct CcittCheck;

impl ImageCheck for CcittCheck {
    type State = SumState<u16>;

    const SUM_LENGTH: usize = 2;

    ghost SUM_LENGTH = { 2 };

    ghost check = { ccitt_check };

    fn start() -> SumState<u16> {
        SumCheck::<CrcCcitt>::start()
    }

    fn step(state: SumState<u16>, byte: u8) -> SumState<u16> {
        SumCheck::<CrcCcitt>::step(state, byte)
    }

    fn accepts(state: SumState<u16>) -> bool {
        SumCheck::<CrcCcitt>::accepts(state)
    }
}
