//! The commands of the host, and what each does to the memory.
#![tactic(auto)]

ghost use Rattle.std.specs.Prelude.{◌≡◌, ◌+◌, ◌<◌, Bool, IfErr, MatchOption};
ghost use Rattle.image.specs.Check.{accepted};
ghost use Rattle.layout.specs.Areas.{address as the_address, application_place};
ghost use Rattle.layout.specs.declared.divided.Layout.{Layout as Areas};
ghost use Rattle.memory.specs.Ran.{erases};
ghost use Rattle.rule.specs.Command.{effect, erase_segment, write_block, jump, obey as the_effect};
ghost use Rattle.words.specs.declared.Answer.TheVariants.{Done};
ghost use Rattle.commands.specs.Obeyed.{ready, effect_of, AnswersNone, Carried, Obeyed};
ghost use Rattle.words.specs.declared.Job.TheVariants.{HostCommand};
ghost use Rattle.words.specs.declared.Phase.TheVariants.{Listening};

use area::startable_at;
use image::ImageCheck;
use layout::{Layout, mark};
use memory::{Fault, Memory, erase_all, write_all};
use rule::Work;
use words::{Answer, Job, Phase, Refusal};

/// What a good frame's payload asks for. A block's data are a part of the payload.
#[derive(Clone, Copy, Debug, PartialEq, Eq)]
pub enum Command<'p> {
    EraseSegment { address: u16 },
    EraseAll,
    WriteBlock { address: u16, block: &'p [u8] },
    Version,
    Jump,
}

/// What is sent back, and what the controller does then.
#[derive(Clone, Copy, Debug, PartialEq, Eq)]
pub struct Response {
    pub answer: Answer,
    pub phase: Phase,
}

// After an answer the controller goes on listening; only a jump has it wait.
impl From<Answer> for Response {
    ghost from_gives = { λ answer response. response ≡ record { answer = answer; phase = Listening } };

    fn from(answer: Answer) -> Response {
        Response {
            answer,
            phase: Phase::Listening,
        }
    }
}

/// The command that a payload is, or the answer to one that is none.
/// A payload may say more than its command needs, so this reads and does not convert.
pub fn parse(payload: &[u8]) -> Result<Command<'_>, Answer>
    ensures effect { (l : Areas) (can : Bool) → effect_of l can result ≡ the_effect l can payload.now }
    ensures none { IfErr result AnswersNone }
{
    match payload {
        [0x12, low, high, ..] => Ok(Command::EraseSegment {
            address: u16::from_le_bytes([*low, *high]),
        }),
        [0x15, ..] => Ok(Command::EraseAll),
        [0x10, low, high, block @ ..] => Ok(Command::WriteBlock {
            address: u16::from_le_bytes([*low, *high]),
            block,
        }),
        [0x19, ..] => Ok(Command::Version),
        [0x1C, ..] => Ok(Command::Jump),
        [0x10 | 0x12, ..] => Err(Answer::InvalidParams),
        _ => Err(Answer::IncorrectCommand),
    }
}

// How far an address lies above the first one that the host may name.
fn offset(layout: &Layout, address: u16) -> Option<usize>
    ensures { let first = the_address layout.now (application_place layout.now) in MatchOption result (address < first) (λ offset. address ≡ first + offset) }
{
    let first = usize::from(layout.application_address());
    usize::from(address).checked_sub(first)
}

// The address has to start a segment of the application area; the matching download segment is erased.
// Memory and layout come side by side: a memory is passed beside the controller's record, which keeps the layout.
#[tactic(auto, using(memory::specs::Ran::none, memory::specs::Ran::stop, memory::specs::Ran::more, crate::proofs::Carrying::erase_fine))]
fn erase_segment<M: Memory>(
    memory: &mut M,
    layout: &Layout,
    address: u16,
) -> Result<Response, Fault>
    ensures { Carried M.Memory.make (erase_segment layout.now address) memory.old memory.new result }
{
    match offset(layout, address) {
        Some(offset) if offset < layout.application_size() && offset % 512 == 0 => {
            memory.erase(1 + offset / 512)?;
            Ok(Answer::Done.into())
        }
        _ => Ok(Answer::InvalidParams.into()),
    }
}

// The block has to lie within the application area's addresses; it is written to the matching download places.
fn write_block<M: Memory>(
    memory: &mut M,
    layout: &Layout,
    address: u16,
    block: &[u8],
) -> Result<Response, Fault>
    ensures { Carried M.Memory.make (write_block layout.now address block.now) memory.old memory.new result }
{
    match offset(layout, address) {
        Some(offset) if !block.is_empty() && offset + block.len() <= layout.application_size() => {
            write_all(memory, layout.download_place() + offset, block)?;
            Ok(Answer::Done.into())
        }
        _ => Ok(Answer::InvalidParams.into()),
    }
}

fn erase_downloads<M: Memory>(memory: &mut M, layout: &Layout) -> Result<Response, Fault>
    ensures { Carried M.Memory.make (effect (erases 1 layout.now.k) Done) memory.old memory.new result }
{
    erase_all(memory, 1, layout.k())?;
    Ok(Answer::Done.into())
}

// Whether the download area may be started.
fn is_ready<M: Memory, C: ImageCheck>(memory: &M, layout: &Layout) -> bool
    ensures { result ≡ ready (accepted C.ImageCheck.check) layout.now (M.Memory.make.state memory.now) }
{
    startable_at::<M, C>(memory, layout.download_place(), layout.application_size())
}

// Marks a startable download area as approved. The controller waits in either case.
#[tactic(auto, using(memory::specs::Ran::none, memory::specs::Ran::stop, memory::specs::Ran::more))]
fn approve<M: Memory, C: ImageCheck>(memory: &mut M, layout: &Layout) -> Result<Response, Fault>
    ensures { Carried M.Memory.make (jump (ready (accepted C.ImageCheck.check) layout.now (M.Memory.make.state memory.old))) memory.old memory.new result }
{
    let answer = if is_ready::<M, C>(memory, layout) {
        memory.write(0, mark::APPROVED)?;
        Answer::Done
    } else {
        Answer::InvalidParams
    };
    Ok(Response {
        answer,
        phase: Phase::Waiting,
    })
}

#[tactic(auto, using(memory::specs::Ran::none))]
fn carry_out<M: Memory, C: ImageCheck>(
    memory: &mut M,
    layout: &Layout,
    payload: &[u8],
) -> Result<Response, Fault>
    ensures { Carried M.Memory.make (the_effect layout.now (ready (accepted C.ImageCheck.check) layout.now (M.Memory.make.state memory.old)) payload.now) memory.old memory.new result }
{
    match parse(payload) {
        Ok(Command::EraseSegment { address }) => erase_segment(memory, layout, address),
        Ok(Command::EraseAll) => erase_downloads(memory, layout),
        Ok(Command::WriteBlock { address, block }) => write_block(memory, layout, address, block),
        Ok(Command::Version) => Ok(Answer::Version.into()),
        Ok(Command::Jump) => approve::<M, C>(memory, layout),
        Err(answer) => Ok(answer.into()),
    }
}

// The host, whose changes all belong to its command.
#[derive(Clone, Copy)]
struct HostWork;

impl Work for HostWork {
    ghost jobs = { λ _ _. HostCommand };

    fn job(&self, _place: usize) -> Job {
        Job::HostCommand
    }
}

/// Does what a good frame's payload asks for.
pub fn obey<M: Memory, C: ImageCheck>(
    memory: &mut M,
    layout: &Layout,
    payload: &[u8],
) -> Result<Response, Refusal>
    ensures { Obeyed M.Memory.make (the_effect layout.now (ready (accepted C.ImageCheck.check) layout.now (M.Memory.make.state memory.old)) payload.now) memory.old memory.new result }
{
    carry_out::<M, C>(memory, layout, payload).map_err(|fault| HostWork.refusal(fault))
}
