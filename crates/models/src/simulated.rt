//! What flash and FRAM share: size, refusals, and the counting of cuts.
ghost use Rattle.std.specs.Prelude.{◌≡◌, ◌+◌, ◌≤◌, OnOk};
ghost use Rattle.models.specs.Simulated.{room as the_room, fate, counted as the_counted, Fresh};
ghost use Rattle.models.specs.Simulated.{simulated};
ghost use Rattle.models.specs.Kept.{simulated_laws};

use crate::Cells;
use memory::{Fault, Memory};
use std::marker::PhantomData;

/// After so many finished changes the next one is torn, in the way that the pattern says.
#[derive(Clone, Copy, Debug, PartialEq, Eq)]
pub struct Cut {
    pub count: u32,
    pub pattern: u16,
}

/// A memory over a caller's bytes. Those of the caller's cuts that are still to come are left in `cuts`.
#[derive(Drop)]
pub struct Simulated<'b, 'c, C> {
    bytes: &'b mut [u8],
    cuts: &'c [Cut],
    finished: u32,
    on: bool,
    cells: PhantomData<C>,
}

impl<'b, 'c, C> Simulated<'b, 'c, C> {
    /// Over the caller's bytes and cuts, with the supply on.
    pub fn new(bytes: &'b mut [u8], cuts: &'c [Cut]) -> Simulated<'b, 'c, C>
        ensures { Fresh bytes.entry cuts.entry result }
    {
        Simulated {
            bytes,
            cuts,
            finished: 0,
            on: true,
            cells: PhantomData,
        }
    }

    // How many bytes are used: whole segments of 512, at most 105 of them.
    fn room(&self) -> usize
        ensures { result ≡ the_room self.now.bytes.now }
    {
        512 * (self.bytes.len() / 512).min(105)
    }

    // Begins a change of so many places from one up: refuses it, or counts it and gives the pattern that tears it, if one does.
    fn begin(&mut self, place: usize, span: usize) -> Result<Option<u16>, Fault>
        ensures fate { result ≡ fate place span self.old }
        ensures counted { self.new ≡ the_counted result self.old }
        ensures within { OnOk result (place + span ≤ the_room self.old.bytes.now) }
    {
        let room = self.room();
        if room < span || room - span < place {
            return Err(Fault::PastEnd);
        }
        if !self.on {
            return Err(Fault::SupplyLost(place));
        }
        if let [Cut { count, pattern }, later @ ..] = self.cuts {
            if *count <= self.finished {
                self.cuts = later;
                self.finished = 0;
                self.on = false;
                return Ok(Some(*pattern));
            }
            self.finished += 1;
        }
        Ok(None)
    }
}

impl<'b, 'c, C: Cells> Memory for Simulated<'b, 'c, C> {
    ghost make = { simulated C.Cells.rules };

    ghost laws = { simulated_laws C.Cells.rules C.Cells.sound };

    fn size(&self) -> usize {
        self.room()
    }

    fn read(&self, place: usize) -> u8 {
        if place < self.room() {
            self.bytes[place]
        } else {
            0xFF
        }
    }

    // Not one function with `erase`: the two arms are alike, but what becomes of the bytes differs in each.
    fn write(&mut self, place: usize, byte: u8) -> Result<(), Fault> {
        match self.begin(place, 1)? {
            Some(pattern) => {
                self.bytes[place] = C::torn_write(pattern, self.bytes[place], byte);
                Err(Fault::SupplyLost(place))
            }
            None => {
                self.bytes[place] = C::mix(self.bytes[place], byte);
                Ok(())
            }
        }
    }

    fn erase(&mut self, segment: usize) -> Result<(), Fault> {
        let place = segment.saturating_mul(512);
        match self.begin(place, 512)? {
            Some(pattern) => {
                C::torn_erase(pattern, &mut self.bytes[place..place + 512]);
                Err(Fault::SupplyLost(place))
            }
            None => {
                self.bytes[place..place + 512].fill(0xFF);
                Ok(())
            }
        }
    }

    fn restore(&mut self) {
        self.on = true;
    }
}
