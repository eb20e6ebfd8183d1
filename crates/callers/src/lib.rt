//! What a caller knows of its own arrays once simulated memories over them are gone: every byte, those beyond the last whole segment
//! too, and how the changes ended; also through generic code. Each call does the same to a flash and to a FRAM. The three are written
//! out one by one, as a caller would write each.
#![tactic(auto)]

ghost use Rattle.std.specs.Prelude.{◌≡◌, ◌++◌, replicate, Ok, Err, slice_set};
ghost use Rattle.memory.specs.declared.Fault.TheVariants.{SupplyLost};

use memory::{Fault, erase_all, write_all};
use models::{Cells, Cut, FlashCells, FramCells, Simulated};

/// A caller's bytes after the changes, and how the last list of them ended.
#[derive(Clone, Copy, Debug, PartialEq, Eq)]
pub struct Left {
    pub bytes: [u8; 600],
    pub end: Result<(), Fault>,
}

/// What is left in each technology.
#[derive(Clone, Copy, Debug, PartialEq, Eq)]
pub struct Both {
    pub flash: Left,
    pub fram: Left,
}

// A write of 0x07 over an erased byte, torn under the pattern 0x10, in one technology.
fn torn_write_in<C: Cells>() -> Left
    ensures bytes { result.bytes ≡ slice_set (replicate 600 0xFF) 3 (C.Cells.rules.torn_write 0x10 0xFF 0x07) }
    ensures end { result.end ≡ Err (SupplyLost 3) }
{
    let cuts = [Cut {
        count: 0,
        pattern: 0x10,
    }];
    let mut bytes = [0xFF; 600];
    let mut memory: Simulated<C> = Simulated::new(&mut bytes, &cuts);
    let end = write_all(&mut memory, 3, &[0x07]);
    Left { bytes, end }
}

/// The torn write in both technologies.
pub fn torn_write() -> Both
    ensures flash_bytes { result.flash.bytes ≡ slice_set (replicate 600 0xFF) 3 0x17 }
    ensures flash_end { result.flash.end ≡ Err (SupplyLost 3) }
    ensures fram_bytes { result.fram.bytes ≡ replicate 600 0xFF }
    ensures fram_end { result.fram.end ≡ Err (SupplyLost 3) }
{
    Both {
        flash: torn_write_in::<FlashCells>(),
        fram: torn_write_in::<FramCells>(),
    }
}

// An erase of a segment full of 0x05, torn under the pattern 0x12, in one technology.
fn torn_erase_in<C: Cells>() -> Left
    ensures bytes { result.bytes ≡ C.Cells.rules.torn_erase 0x12 (replicate 512 0x05) ++ replicate 88 0x05 }
    ensures end { result.end ≡ Err (SupplyLost 0) }
{
    let cuts = [Cut {
        count: 0,
        pattern: 0x12,
    }];
    let mut bytes = [0x05; 600];
    let mut memory: Simulated<C> = Simulated::new(&mut bytes, &cuts);
    let end = erase_all(&mut memory, 0, 1);
    Left { bytes, end }
}

/// The torn erase in both technologies.
pub fn torn_erase() -> Both
    ensures flash_bytes { result.flash.bytes ≡ replicate 512 0x17 ++ replicate 88 0x05 }
    ensures flash_end { result.flash.end ≡ Err (SupplyLost 0) }
    ensures fram_bytes { result.fram.bytes ≡ replicate 18 0xFF ++ replicate 582 0x05 }
    ensures fram_end { result.fram.end ≡ Err (SupplyLost 0) }
{
    Both {
        flash: torn_erase_in::<FlashCells>(),
        fram: torn_erase_in::<FramCells>(),
    }
}

// A segment full of 0x05, erased with no cut, and three bytes written, in one technology.
fn whole_run_in<C: Cells>(written: [u8; 3]) -> Left
    ensures bytes { result.bytes ≡ replicate 3 0xFF ++ written ++ replicate 506 0xFF ++ replicate 88 0x05 }
    ensures end { result.end ≡ Ok tt }
{
    // A local array: of a memory over a `&[]` written in the call a proof does not learn what it leaves.
    let cuts: [Cut; 0] = [];
    let mut bytes = [0x05; 600];
    let mut memory: Simulated<C> = Simulated::new(&mut bytes, &cuts);
    // How it ended is not kept: what the write leaves shows that it finished.
    let _ = erase_all(&mut memory, 0, 1);
    let end = write_all(&mut memory, 3, &written);
    Left { bytes, end }
}

/// The whole run in both technologies, with other bytes in each.
pub fn whole_run() -> Both
    ensures flash_bytes { result.flash.bytes ≡ slice_set (slice_set (slice_set (replicate 512 0xFF) 3 1) 4 2) 5 3 ++ replicate 88 0x05 }
    ensures flash_end { result.flash.end ≡ Ok tt }
    ensures fram_bytes { result.fram.bytes ≡ slice_set (slice_set (slice_set (replicate 512 0xFF) 3 4) 4 5) 5 6 ++ replicate 88 0x05 }
    ensures fram_end { result.fram.end ≡ Ok tt }
{
    Both {
        flash: whole_run_in::<FlashCells>([1, 2, 3]),
        fram: whole_run_in::<FramCells>([4, 5, 6]),
    }
}
