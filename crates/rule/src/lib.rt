//! The rule on cuts: what a controller runs after its supply has failed, whatever its memory, its image check and its bus; and how a lost
//! change is told.
#![tactic(auto)]

ghost use Rattle.std.specs.Prelude.{◌≡◌, ℕ};
ghost use Rattle.image.specs.Check.{accepted};
ghost use Rattle.rule.specs.Bus.{Bus, Law};
ghost use Rattle.rule.specs.Calls.{engine};
ghost use Rattle.rule.specs.Performed.{refusing};
ghost use Rattle.rule.specs.Rule.{Rule};
ghost use Rattle.rule.specs.Frames.{Unfinished, ActsOnGoodFrames, JumpsTold};
ghost use Rattle.words.specs.declared.Job.{Job};

use image::ImageCheck;
use memory::{Fault, Memory};
use words::{Job, Refusal};

/// A bus by which a host speaks to a controller.
pub trait HostBus {
    ghost bus: { Bus };

    ghost law: { Law bus };
}

/// The rule on cuts, for two controllers over any two memories and any two buses, with one image check.
pub fn rule_on_cuts<A: Memory, B: Memory, C: ImageCheck, U: HostBus, V: HostBus>()
    ensures { Rule (engine U.HostBus.bus (accepted C.ImageCheck.check) A.Memory.make) (engine V.HostBus.bus (accepted C.ImageCheck.check) B.Memory.make) }
{}

/// On frames, a command is acted on exactly where the bytes since the last answer are a good frame.
pub fn good_frames_are_acted_on<M: Memory, C: ImageCheck>()
    ensures kept { Unfinished (accepted C.ImageCheck.check) M.Memory.make }
    ensures acted { ActsOnGoodFrames }
{}

/// On frames, the accepted jumps are the jump frames that are answered 0x00.
pub fn jumps_are_told_by_their_answer<M: Memory, C: ImageCheck>()
    ensures { JumpsTold (accepted C.ImageCheck.check) M.Memory.make }
{}

/// What is at work on a memory. A change that loses its supply is told with the job that its place belongs to. No closure finds the
/// job: a public function that calls one has to ask, by a `requires`, that it may.
pub trait Work {
    ghost jobs: { Self → ℕ → Job };

    fn job(&self, place: usize) -> Job
        ensures { result ≡ jobs self.now place };

    /// The refusal by which a call tells a fault of its memory.
    final fn refusal(&self, fault: Fault) -> Refusal
        ensures { result ≡ refusing (jobs self.now) fault }
    {
        match fault {
            Fault::SupplyLost(place) => Refusal::SupplyLost {
                place,
                job: self.job(place),
            },
            Fault::PastEnd => Refusal::PastEnd,
        }
    }
}
