//! Whether an area of a memory may be started, told without a copy of the area.
#![tactic(auto)]

ghost use Rattle.std.specs.Prelude.{◌≡◌, ◌+◌};
ghost use Rattle.memory.specs.State.{at};
ghost use Rattle.image.specs.Check.{accepted};
ghost use Rattle.image.specs.Startable.{startable};
ghost use Rattle.area.specs.Reads.{reads, OneArea};

use image::ImageCheck;
use memory::Memory;

/// Whether so many bytes of a memory from a place up may be started: their entry is not erased, and the check accepts them. A place
/// past the end reads 0xFF.
/// Not one function with `image::startable`: over any source it would take an iterator or a closure and need a `requires`, which no public
/// function here has.
pub fn startable_at<M: Memory, C: ImageCheck>(memory: &M, place: usize, length: usize) -> bool
    ensures { result ≡ startable (accepted C.ImageCheck.check) (reads (M.Memory.make.state memory.now) place length) }
{
    let byte = |i: usize| -> u8
        ensures { result ≡ at (M.Memory.make.state memory.entry.now) (place + i) }
    { memory.read(place.saturating_add(i)) };
    if length < 2 {
        return false;
    }
    let low = byte(length - 2);
    let high = byte(length - 1);
    if u16::from_le_bytes([low, high]) == image::ERASED {
        return false;
    }
    // A closure for the step, as in `image::accepts`.
    let state = (0..length)
        .map(byte)
        .fold(C::start(), |state, byte| C::step(state, byte));
    C::accepts(state)
}

/// What a memory reads as from a place up is one list, the one that the contracts name.
pub fn one_area_is_read()
    ensures { OneArea }
{}
