//! An image whose first byte is the CRC-8 sum of all later bytes.
ghost use Rattle.image.specs.Sums.{crc8_check};

use crate::{ImageCheck, SumCheck, SumState};
use crc::Crc8;

/// The check by a stored CRC-8 sum. It is the check by its checksum; as a type of its own it is a value that a caller can hold, and its
/// length of stored sum is a constant that a caller can compute with.
#[derive(Clone, Copy, Debug)]
pub struct Crc8Check;

impl ImageCheck for Crc8Check {
    type State = SumState<u8>;

    const SUM_LENGTH: usize = 1;

    ghost SUM_LENGTH = { 1 };

    ghost check = { crc8_check };

    fn start() -> SumState<u8> {
        SumCheck::<Crc8>::start()
    }

    fn step(state: SumState<u8>, byte: u8) -> SumState<u8> {
        SumCheck::<Crc8>::step(state, byte)
    }

    fn accepts(state: SumState<u8>) -> bool {
        SumCheck::<Crc8>::accepts(state)
    }
}
