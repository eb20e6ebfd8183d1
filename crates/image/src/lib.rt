//! Image checks, and whether an area may be started.
#![tactic(auto)]

ghost use Rattle.std.specs.Prelude.{◌≡◌, ℕ, ◌<◌, ◌≤◌, length, take, drop, fold, MatchOption};
ghost use Rattle.image.specs.Check.{Check, accepted};
ghost use Rattle.image.specs.Sums.{Meanings, AcceptsItsSum, ccitt_check, crc8_check, vector_check};
ghost use Rattle.image.specs.Startable.{entry as the_entry, startable as can_start};

mod ccitt;
mod crc8;
mod stored;
mod sum;
mod vector;

pub use ccitt::CcittCheck;
use crc::{Checksum, Crc8, CrcCcitt};
pub use crc8::Crc8Check;
pub use stored::Stored;
pub use sum::{SumCheck, SumState};
pub use vector::VectorOnly;

/// The entry of an area whose last two bytes are erased.
pub const ERASED: u16 = 0xFFFF;

/// An image check: a starting state, a step for each byte, and a yes or no of a state. It has its own kind of state and its own
/// length of stored sum, and shows that its calls are the three functions of `check`; nothing else is asked of it.
pub trait ImageCheck {
    type State;

    /// How many bytes the stored sum has, at the start of the image.
    const SUM_LENGTH: usize;

    // The same, as a number that a contract can name.
    ghost SUM_LENGTH: { ℕ };

    ghost check: { Check Self.State };

    fn start() -> Self::State
        ensures { result ≡ check.start };

    fn step(state: Self::State, byte: u8) -> Self::State
        ensures { result ≡ check.step state byte };

    fn accepts(state: Self::State) -> bool
        ensures { result ≡ check.accepts state };
}

/// Whether the check accepts these bytes.
pub fn accepts<C: ImageCheck>(image: &[u8]) -> bool
    ensures { result ≡ accepted C.ImageCheck.check image.now }
{
    // The step stands in a closure: the prover does not take a bound's method by its name.
    let state = image
        .iter()
        .copied()
        .fold(C::start(), |state, byte| C::step(state, byte));
    C::accepts(state)
}

/// The stored sum and the bytes that it covers, which are all later ones; None where the image is shorter than its stored sum.
pub fn split_sum<C: ImageCheck>(image: &[u8]) -> Option<(&[u8], &[u8])>
    ensures { MatchOption result (length image.now < C.ImageCheck.SUM_LENGTH) (λ p. (C.ImageCheck.SUM_LENGTH ≤ length image.now) × (p.0.now ≡ take C.ImageCheck.SUM_LENGTH image.now) × (p.1.now ≡ drop C.ImageCheck.SUM_LENGTH image.now)) }
{
    image.split_at_checked(C::SUM_LENGTH)
}

/// An area's entry: its last two bytes, low byte first; None where it has fewer.
pub fn entry(area: &[u8]) -> Option<u16>
    ensures { result ≡ the_entry area.now }
{
    match area {
        [.., low, high] => Some(u16::from_le_bytes([*low, *high])),
        _ => None,
    }
}

/// Whether an area may be started: its entry is not erased, and the check accepts its bytes.
pub fn startable<C: ImageCheck>(area: &[u8]) -> bool
    ensures { result ≡ can_start (accepted C.ImageCheck.check) area.now }
{
    match entry(area) {
        None | Some(ERASED) => false,
        Some(_) => accepts::<C>(area),
    }
}

/// The check by any checksum accepts just the images whose stored sum is the sum of all later bytes.
pub fn check_accepts_its_sum<S: Checksum<Register: Stored>>()
    ensures { AcceptsItsSum S.Register.LENGTH S.Register.number S.Register.eq (fold S.steps S.START) ⟦<SumCheck<S> as ImageCheck>⟧.check }
{}

/// What a check by a stored sum accepts where the register is a number, and each of the three; none accepts an image that is shorter than its stored sum.
pub fn checks_accept_by_their_sums()
    ensures meanings { Meanings }
    ensures ccitt { (⟦<CcittCheck as ImageCheck>⟧.check ≡ ccitt_check) × (⟦<CcittCheck as ImageCheck>⟧.SUM_LENGTH ≡ 2) }
    ensures crc8 { (⟦<Crc8Check as ImageCheck>⟧.check ≡ crc8_check) × (⟦<Crc8Check as ImageCheck>⟧.SUM_LENGTH ≡ 1) }
    ensures by_ccitt { (⟦<SumCheck<CrcCcitt> as ImageCheck>⟧.check ≡ ccitt_check) × (⟦<SumCheck<CrcCcitt> as ImageCheck>⟧.SUM_LENGTH ≡ 2) }
    ensures by_crc8 { (⟦<SumCheck<Crc8> as ImageCheck>⟧.check ≡ crc8_check) × (⟦<SumCheck<Crc8> as ImageCheck>⟧.SUM_LENGTH ≡ 1) }
    ensures vector { (⟦<VectorOnly as ImageCheck>⟧.check ≡ vector_check) × (⟦<VectorOnly as ImageCheck>⟧.SUM_LENGTH ≡ 0) }
{}
