//! A memory whose supply may fail in any change, and changes made in turn over any such memory.
#![tactic(auto)]

ghost use Rattle.std.specs.Prelude.{◌≡◌, Some};
ghost use Rattle.memory.specs.State.{size as the_size, at};
ghost use Rattle.memory.specs.Change.{write, erase, fault_number, fault_text};
ghost use Rattle.memory.specs.Make.{Make, Laws};
ghost use Rattle.memory.specs.Ran.{Wrote, Cleared};

use std::error::Error;
use std::fmt;

/// Why a change is refused. A lost supply comes with the first place that the change would have touched.
#[derive(Clone, Copy, Debug, PartialEq, Eq)]
pub enum Fault {
    SupplyLost(usize),
    PastEnd,
}

impl Fault {
    /// A method and no conversion into a number: the place is dropped. A call's refusals, which a memory does not know, have these numbers too.
    pub fn number(self) -> u8
        ensures { result ≡ fault_number self }
    {
        match self {
            Fault::SupplyLost(_) => 2,
            Fault::PastEnd => 3,
        }
    }
}

impl fmt::Display for Fault {
    ghost output = { λ fault. Some (fault_text fault) };

    fn fmt<W: fmt::Write>(&self, f: &mut fmt::Formatter<W>) -> fmt::Result {
        match *self {
            Fault::SupplyLost(place) => write!(f, "supply lost at {place}"),
            Fault::PastEnd => write!(f, "past the end"),
        }
    }
}

impl Error for Fault {}

/// A memory of whole segments, any change of which may lose the supply.
pub trait Memory {
    // What is known of a memory, and how a change and the return of its supply come out.
    ghost make: { Make Self };

    fn size(&self) -> usize
        ensures { result ≡ the_size (make.state self.now) };

    fn read(&self, place: usize) -> u8
        ensures { result ≡ at (make.state self.now) place };

    fn write(&mut self, place: usize, byte: u8) -> Result<(), Fault>
        ensures { make.changes (write place byte) self.old self.new result };

    fn erase(&mut self, segment: usize) -> Result<(), Fault>
        ensures { make.changes (erase segment) self.old self.new result };

    /// The supply returns.
    fn restore(&mut self)
        ensures { make.restores self.old self.new };

    // What each memory has to show.
    ghost laws: { Laws make };
}

/// Writes bytes one after the other from a place up, until one is refused.
pub fn write_all<M: Memory>(memory: &mut M, place: usize, bytes: &[u8]) -> Result<(), Fault>
    ensures { Wrote M.Memory.make place bytes.now memory.old memory.new result }
{
    // Counted from zero: `(place..).zip(bytes)` would leave out a byte at the largest number.
    for (i, byte) in bytes.iter().enumerate() {
        memory.write(place + i, *byte)?;
    }
    Ok(())
}

/// Erases so many segments one after the other from one up, until one is refused.
pub fn erase_all<M: Memory>(memory: &mut M, segment: usize, count: usize) -> Result<(), Fault>
    ensures { Cleared M.Memory.make segment count memory.old memory.new result }
{
    // Counted from zero: `segment + count` may be past the largest number.
    for i in 0..count {
        memory.erase(segment + i)?;
    }
    Ok(())
}
