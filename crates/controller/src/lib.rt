//! A controller with two images: commissioning, receiving and restarting, over any memory and any image check.
#![tactic(auto)]

ghost use Rattle.std.specs.Prelude.{◌≡◌, ℕ, List};
ghost use Rattle.image.specs.Check.{accepted};
ghost use Rattle.area.specs.Reads.{reads};
ghost use Rattle.layout.specs.Areas.{application_place, application_size};
ghost use Rattle.rule.specs.Bus.{fresh};
ghost use Rattle.rule.specs.Restart.{forced, choice};
ghost use Rattle.rule.specs.Frames.{frames, framed};
ghost use Rattle.rule.specs.Rule.{Rule};
ghost use Rattle.words.specs.declared.Call.TheVariants.{Tell, Restart};
ghost use Rattle.words.specs.declared.Phase.TheVariants.{Waiting};
ghost use Rattle.controller.specs.Machines.{control, machine, CalledOn, said, chose, tested, TakenOn, SupplyTold};
ghost use Rattle.controller.specs.Playing.{Played, Run};

use area::startable_at;
use commands::obey;
use image::ImageCheck;
use layout::{Layout, mark};
use memory::Memory;
use mending::{check_size, mend};
use receiver::Receiver;
use words::{Call, Inputs, Outcome, Phase, Refusal, Reply, Success, Turn};

// The password by which an application asks for the host.
const PASSWORD: u16 = 0xC0DE;

/// A controller: its layout, what it is doing, and what has come in of a frame.
#[derive(Drop)]
pub struct Controller {
    layout: Layout,
    phase: Phase,
    receiver: Receiver,
}

// Whether a restart has to listen: the pin is low, or password and bit 0 of the status word ask for it.
fn is_forced(inputs: Inputs) -> bool
    ensures { result ≡ forced inputs }
{
    !inputs.pin_high || inputs.password == PASSWORD && inputs.status % 2 == 1
}

// The phase that a restart chooses, by its inputs and by the application area as it is now.
fn choose<M: Memory, C: ImageCheck>(memory: &M, layout: &Layout, inputs: Inputs) -> Phase
    ensures { result ≡ choice (accepted C.ImageCheck.check) inputs (reads (M.Memory.make.state memory.now) (application_place layout.now) (application_size layout.now)) }
{
    if !is_forced(inputs)
        && startable_at::<M, C>(
            memory,
            layout.application_place(),
            layout.application_size(),
        )
    {
        Phase::Running
    } else {
        Phase::Listening
    }
}

impl Controller {
    /// With one segment of each, waiting.
    pub fn new() -> Controller
        ensures k { result.layout.k ≡ 1 }
        ensures b { result.layout.b ≡ 1 }
        ensures control { control result ≡ fresh frames result.layout Waiting }
    {
        Controller {
            layout: Layout::least(),
            phase: Phase::Waiting,
            receiver: Receiver::new(),
        }
    }

    /// What it is doing.
    pub fn phase(&self) -> Phase
        ensures { result ≡ self.now.phase }
    {
        self.phase
    }

    /// Takes on a layout: the memory has to have its size, and its mark has to be erased.
    pub fn commission<M: Memory>(&mut self, memory: &M, layout: Layout) -> Result<(), Refusal>
        ensures answer { result ≡ tested layout (M.Memory.make.state memory.now) }
        ensures taken { TakenOn layout self.old self.new result }
    {
        check_size(memory, &layout)?;
        if memory.read(0) != mark::ERASED {
            return Err(Refusal::MarkNotErased);
        }
        self.layout = layout;
        self.phase = Phase::Waiting;
        self.receiver = Receiver::new();
        Ok(())
    }

    /// The supply is back: an approved image is brought into place, and the controller listens or runs.
    pub fn restart<M: Memory, C: ImageCheck>(
        &mut self,
        memory: &mut M,
        inputs: Inputs,
    ) -> Result<Phase, Refusal>
        ensures called { CalledOn (accepted C.ImageCheck.check) M.Memory.make (Restart inputs) self.old memory.old self.new memory.new (chose result) }
        ensures supply { SupplyTold result (M.Memory.make.state memory.new) }
    {
        check_size(memory, &self.layout)?;
        memory.restore();
        self.phase = Phase::Waiting;
        self.receiver = Receiver::new();
        mend(memory, &self.layout)?;
        let phase = choose::<M, C>(memory, &self.layout, inputs);
        self.phase = phase;
        Ok(phase)
    }

    /// A byte from the host.
    pub fn receive<M: Memory, C: ImageCheck>(
        &mut self,
        memory: &mut M,
        byte: u8,
    ) -> Result<Reply, Refusal>
        ensures { CalledOn (accepted C.ImageCheck.check) M.Memory.make (Tell byte) self.old memory.old self.new memory.new (said result) }
    {
        check_size(memory, &self.layout)?;
        if self.phase != Phase::Listening {
            return Err(Refusal::NotListening);
        }
        // While a frame goes on nothing is said, and an error is answered. A good frame's command is obeyed.
        match self.receiver.byte(byte) {
            Ok(true) => {}
            Ok(false) => return Ok(None),
            Err(answer) => return Ok(Some(answer)),
        }
        self.phase = Phase::Waiting;
        match obey::<M, C>(memory, &self.layout, self.receiver.payload()) {
            Ok(response) => {
                self.phase = response.phase;
                Ok(Some(response.answer))
            }
            // An arm and no `?`: here a must-fail edit has the receiver keep a byte after a cut.
            Err(refusal) => Err(refusal),
        }
    }

    /// Either of the two calls.
    pub fn call<M: Memory, C: ImageCheck>(
        &mut self,
        memory: &mut M,
        call: Call<u8>,
    ) -> Outcome<Reply>
        ensures { CalledOn (accepted C.ImageCheck.check) M.Memory.make call self.old memory.old self.new memory.new result }
    {
        match call {
            Call::Tell(byte) => self.receive::<M, C>(memory, byte).map(Success::Said),
            Call::Restart(inputs) => self.restart::<M, C>(memory, inputs).map(Success::Chose),
        }
    }
}

/// Makes the calls of the turns one after the other, and fills in how they came out.
pub fn play<M: Memory, C: ImageCheck>(
    controller: &mut Controller,
    memory: &mut M,
    turns: &mut [Turn<u8, Reply>],
)
    ensures { Played (accepted C.ImageCheck.check) M.Memory.make turns.old turns.new (machine (accepted C.ImageCheck.check) M.Memory.make controller.old memory.old) (machine (accepted C.ImageCheck.check) M.Memory.make controller.new memory.new) }
{
    for turn in turns.iter_mut() {
        turn.outcome = Some(controller.call::<M, C>(memory, turn.call));
    }
}

/// Commissions a new controller and plays the turns on it. Memory, layout and turns come side by side, here and in `rehearse`: memory is
/// passed beside the controller's record.
pub fn run<M: Memory, C: ImageCheck>(
    memory: &mut M,
    layout: Layout,
    turns: &mut [Turn<u8, Reply>],
) -> Result<Controller, Refusal>
    ensures { Run (accepted C.ImageCheck.check) M.Memory.make layout turns.old turns.new memory.old memory.new result }
{
    let mut controller = Controller::new();
    controller.commission(memory, layout)?;
    play::<M, C>(&mut controller, memory, turns);
    Ok(controller)
}

/// Plays two lists of turns on two new controllers, each over its own make of memory. Both runs are histories, and the rule on cuts holds
/// of every two such histories.
pub fn rehearse<A: Memory, B: Memory, C: ImageCheck>(
    first: &mut A,
    first_layout: Layout,
    first_turns: &mut [Turn<u8, Reply>],
    second: &mut B,
    second_layout: Layout,
    second_turns: &mut [Turn<u8, Reply>],
) -> (Result<Controller, Refusal>, Result<Controller, Refusal>)
    ensures rule { Rule (framed (accepted C.ImageCheck.check) A.Memory.make) (framed (accepted C.ImageCheck.check) B.Memory.make) }
    ensures first { Run (accepted C.ImageCheck.check) A.Memory.make first_layout first_turns.old first_turns.new first.old first.new result.0 }
    ensures second { Run (accepted C.ImageCheck.check) B.Memory.make second_layout second_turns.old second_turns.new second.old second.new result.1 }
{
    let a = run::<A, C>(first, first_layout, first_turns);
    let b = run::<B, C>(second, second_layout, second_turns);
    (a, b)
}
