//! Two simulated memories with exact cuts, flash and FRAM, over bytes and a list of cuts that the caller holds.
#![tactic(auto)]

ghost use Rattle.models.specs.Simulated.{Exact};

mod cells;
mod simulated;

pub use cells::{Cells, FlashCells, FramCells};
pub use simulated::{Cut, Simulated};

/// A simulated flash.
pub type Flash<'b, 'c> = Simulated<'b, 'c, FlashCells>;

/// A simulated FRAM.
pub type Fram<'b, 'c> = Simulated<'b, 'c, FramCells>;

/// Every list of changes has one outcome: the bytes, the counters, the supply and the end are the ones that the definitions give.
#[tactic(auto, using(crate::proofs::Outcomes::exact))]
pub fn changes_have_one_outcome<C: Cells>()
    ensures { Exact C.Cells.rules C }
{}
