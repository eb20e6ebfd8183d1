//! A bench: an input is read, its calls are played on a controller over a simulated memory, and each is told in a line.
#![tactic(auto)]

ghost use Rattle.std.specs.Prelude.{◌≡◌, IfOk};
ghost use Rattle.script.specs.Whole.{script as the_script};
ghost use Rattle.bench.specs.Told.{Benched, BenchedOn, Told};

use controller::run;
use image::CcittCheck;
use layout::Layout;
use memory::Memory;
use models::{Cells, Cut, FlashCells, FramCells, Simulated};
use script::{Kind, Script, Stop};
use std::alloc::{AllocError, Global};
use words::{Reply, Turn};

// The bytes of the largest layout: 105 segments of 512 bytes each.
const LARGEST: usize = 53760;

/// Commissions a controller over an erased memory with these cuts, plays the turns on it, and fills in how they came out.
pub fn play<C: Cells>(layout: Layout, cuts: &[Cut], turns: &mut [Turn<u8, Reply>])
    ensures { Benched C.Cells.rules C layout cuts.now turns.old turns.new }
{
    let mut bytes = [0xFF; LARGEST];
    let mut memory: Simulated<C> = Simulated::new(&mut bytes[..layout.size()], cuts);
    // A blank memory of the layout's size is never refused.
    let _ = run::<Simulated<C>, CcittCheck>(&mut memory, layout, turns);
}

// Plays the turns of a script, over a memory of its kind. The kind comes with the input, so a match turns it into a type.
fn play_script(script: &mut Script)
    ensures turns { BenchedOn script.old.kind script.old.layout script.old.cuts.items script.old.turns.items script.new.turns.items }
    ensures ending { script.new.ending ≡ script.old.ending }
{
    let cuts = script.cuts.as_slice();
    let turns = script.turns.as_mut_slice();
    match script.kind {
        Kind::Flash => play::<FlashCells>(script.layout, cuts, turns),
        Kind::Fram => play::<FramCells>(script.layout, cuts, turns),
    }
}

/// What is written for an input: a line for each call as it came out, and one for an input that is refused or ends malformed.
pub fn tell(alloc: Global, input: &[u8]) -> Result<Vec<u8>, AllocError>
    ensures { IfOk result (λ v. Told (the_script input.now) v.items) }
{
    match script::read(alloc, input) {
        Ok(mut script) => {
            play_script(&mut script);
            line::lines(alloc, script.turns.as_slice(), script.ending)
        }
        Err(Stop::Refused(why)) => {
            let mut bytes = Vec::new(alloc);
            line::append(&mut bytes, 0, Err(why))?;
            Ok(bytes)
        }
        // Handed on by an arm: the other error is told in a line, so no `?` takes both.
        Err(Stop::OutOfMemory(error)) => Err(error),
    }
}
