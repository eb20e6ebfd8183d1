//! An image with no stored sum: every list is accepted, and only the entry decides.
ghost use Rattle.image.specs.Sums.{vector_check};

use crate::ImageCheck;

/// The check by nothing but the entry.
#[derive(Clone, Copy, Debug)]
pub struct VectorOnly;

impl ImageCheck for VectorOnly {
    type State = ();

    const SUM_LENGTH: usize = 0;

    ghost SUM_LENGTH = { 0 };

    ghost check = { vector_check };

    fn start() {}

    fn step(_state: (), _byte: u8) {}

    fn accepts(_state: ()) -> bool {
        true
    }
}
