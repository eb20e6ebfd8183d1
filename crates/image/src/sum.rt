//! An image whose first bytes, low byte first, are a checksum's sum of all later bytes.
ghost use Rattle.image.specs.Sums.{sum_check};

use crate::{ImageCheck, Stored};
use crc::Checksum;
use std::marker::PhantomData;

/// What has been seen: a part of the stored sum, or the whole of it with the register over the later bytes.
/// `missing` is counted down by hand: each byte comes in a call of its own, so that there is nothing to go over.
#[derive(Clone, Copy, Debug, PartialEq, Eq)]
pub enum SumState<R> {
    Storing { missing: usize, stored: R },
    Summing { stored: R, register: R },
}

/// The check by the checksum `S`.
#[derive(Clone, Copy, Debug)]
pub struct SumCheck<S>(PhantomData<S>);

impl<S: Checksum<Register: Stored>> ImageCheck for SumCheck<S> {
    type State = SumState<S::Register>;

    const SUM_LENGTH: usize = <S::Register>::LENGTH;

    ghost SUM_LENGTH = { S.Register.LENGTH };

    ghost check = { sum_check S.Register.LENGTH S.Register.ZERO S.Register.push S.Register.eq S.START S.steps };

    fn start() -> SumState<S::Register> {
        SumState::Storing {
            missing: <S::Register>::LENGTH,
            stored: <S::Register>::ZERO,
        }
    }

    fn step(state: SumState<S::Register>, byte: u8) -> SumState<S::Register> {
        match state {
            SumState::Storing { missing, stored } if missing > 1 => SumState::Storing {
                missing: missing - 1,
                stored: stored.push(byte),
            },
            SumState::Storing { stored, .. } => SumState::Summing {
                stored: stored.push(byte),
                register: S::start(),
            },
            SumState::Summing { stored, register } => SumState::Summing {
                stored,
                register: S::step(register, byte),
            },
        }
    }

    fn accepts(state: SumState<S::Register>) -> bool {
        match state {
            SumState::Storing { .. } => false,
            SumState::Summing { stored, register } => stored == register,
        }
    }
}
