//! The worked examples, computed over the definitions that the contracts cite.
#![tactic(auto)]

ghost use Rattle.worked.specs.Worked.{Worked};

/// Every row of the table of worked examples.
#[tactic(auto, unfolding(crc::specs::Register::shifts, crc::specs::Register::fed))]
pub fn worked_examples()
    ensures { Worked }
{}
