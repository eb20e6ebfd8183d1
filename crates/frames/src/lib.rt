//! MSPBoot's frames as the bus of a host.
#![tactic(auto)]

ghost use Rattle.rule.specs.Frames.{frames};
ghost use Rattle.rule.proofs.FramesLaw.{frames_law};

use rule::HostBus;

/// MSPBoot's frames, a byte at a time.
#[derive(Clone, Copy, Debug)]
pub struct Frames;

impl HostBus for Frames {
    ghost bus = { frames };

    ghost law = { frames_law };
}
