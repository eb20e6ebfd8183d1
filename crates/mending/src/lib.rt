//! What a restart does to the memory: an approved image is brought into place, and any mark goes.
#![tactic(auto)]

ghost use Rattle.std.specs.Prelude.{◌≡◌, ◌+◌, ◌*◌, ◌<◌, ◌≤◌, ◌==◌, if◌then◌else◌, Ok, Err};
ghost use Rattle.memory.specs.State.{size as the_size};
ghost use Rattle.memory.specs.Ran.{Ran};
ghost use Rattle.layout.specs.Areas.{size as whole_size};
ghost use Rattle.rule.specs.Restart.{copies, clears, mends, restart_job};
ghost use Rattle.words.specs.declared.Refusal.TheVariants.{WrongSize};
ghost use Rattle.mending.specs.Mended.{segment_copy, Mended};

use layout::{Layout, mark};
use memory::{Fault, Memory, erase_all, write_all};
use rule::Work;
use std::array;
use words::{Job, Refusal};

// Copies one segment over another by way of a buffer.
fn copy_segment<M: Memory>(memory: &mut M, from: usize, to: usize) -> Result<(), Fault>
    requires within { 512 * from + 512 ≤ the_size (M.Memory.make.state memory.old) }
    requires few { (from < 105) × (to < 105) }
    ensures { Ran M.Memory.make (segment_copy from to (M.Memory.make.state memory.old).bytes) memory.old memory.new result }
{
    let bytes: [u8; 512] = array::from_fn(|i| memory.read(512 * from + i));
    memory.erase(to)?;
    write_all(memory, 512 * to, &bytes)
}

// Copies each download segment over its application segment, from the lowest up.
// Memory and layout come side by side: a memory is passed beside the controller's record, which keeps the layout.
fn copy_all<M: Memory>(memory: &mut M, layout: &Layout) -> Result<(), Fault>
    requires { the_size (M.Memory.make.state memory.old) ≡ whole_size layout.now }
    ensures { Ran M.Memory.make (copies layout.now (M.Memory.make.state memory.old).bytes 0 layout.now.k) memory.old memory.new result }
{
    let k = layout.k();
    for i in 0..k {
        copy_segment(memory, 1 + i, 1 + k + i)?;
    }
    Ok(())
}

// Erases the status segment, and the mark with it, then the download segments.
#[tactic(auto, using(memory::specs::Ran::stop, memory::specs::Ran::more))]
fn clear<M: Memory>(memory: &mut M, layout: &Layout) -> Result<(), Fault>
    ensures { Ran M.Memory.make (clears layout.now) memory.old memory.new result }
{
    memory.erase(0)?;
    erase_all(memory, 1, layout.k())
}

// Makes the changes of a restart, by the mark.
#[tactic(auto, using(memory::specs::Ran::none, crate::proofs::Copying::ran_then, crate::proofs::Copying::ran_stopped))]
fn change<M: Memory>(memory: &mut M, layout: &Layout) -> Result<(), Fault>
    requires { the_size (M.Memory.make.state memory.old) ≡ whole_size layout.now }
    ensures { Ran M.Memory.make (mends layout.now (M.Memory.make.state memory.old).bytes) memory.old memory.new result }
{
    match memory.read(0) {
        mark::ERASED => Ok(()),
        mark::APPROVED => {
            copy_all(memory, layout)?;
            clear(memory, layout)
        }
        _ => clear(memory, layout),
    }
}

// A restart's work, whose changes belong to a job by their places.
#[derive(Clone, Copy)]
struct RestartWork<'l>(&'l Layout);

impl Work for RestartWork<'_> {
    ghost jobs = { λ work. restart_job work.0.now };

    fn job(&self, place: usize) -> Job {
        if place == 0 {
            Job::MarkErase
        } else if place < self.0.application_place() {
            Job::DownloadErase
        } else {
            Job::Copy
        }
    }
}

/// Refuses a memory of another size than the layout's.
pub fn check_size<M: Memory>(memory: &M, layout: &Layout) -> Result<(), Refusal>
    ensures { result ≡ (if the_size (M.Memory.make.state memory.now) == whole_size layout.now then Ok tt else Err WrongSize) }
{
    if memory.size() == layout.size() {
        Ok(())
    } else {
        Err(Refusal::WrongSize)
    }
}

/// Brings an approved image into place and erases the mark and the download area, where there is a mark. A memory of another size than
/// the layout's is refused.
pub fn mend<M: Memory>(memory: &mut M, layout: &Layout) -> Result<(), Refusal>
    ensures { Mended M.Memory.make layout.now memory.old memory.new result }
{
    check_size(memory, layout)?;
    change(memory, layout).map_err(|fault| RestartWork(layout).refusal(fault))
}
