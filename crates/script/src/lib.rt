//! The input of a bench: the layout and the kind of a memory, the cuts of its supply, and the calls to make.
#![tactic(auto)]

ghost use Rattle.std.specs.Prelude.{◌≡◌, map, IfOk, ok_or, alloc_error};
ghost use Rattle.script.specs.declared.Stop.TheVariants.{Refused as Declined, OutOfMemory};
ghost use Rattle.script.specs.Cuts.{cut as the_cut};
ghost use Rattle.script.specs.Events.{event as the_event, events as the_events};
ghost use Rattle.script.specs.Held.{Gives, GivesCount, GivesCuts};
ghost use Rattle.script.specs.Whole.{kind_of, script as the_script};
ghost use Rattle.words.specs.declared.Refusal.TheVariants.{MalformedInput};

use layout::Layout;
use models::Cut;
use std::alloc::{AllocError, AllocFailed, Global};
use words::{Call, Inputs, Refusal, Reply, Turn};

// A script has so many cuts at most.
const MOST_CUTS: u16 = 64;

/// What the memory is made of.
#[derive(Clone, Copy, Debug, PartialEq, Eq)]
pub enum Kind {
    Flash,
    Fram,
}

impl TryFrom<u8> for Kind {
    type Error = Refusal;

    ghost try_from_gives = { λ number r. r ≡ ok_or (kind_of number) MalformedInput };

    fn try_from(number: u8) -> Result<Kind, Refusal> {
        match number {
            0 => Ok(Kind::Flash),
            1 => Ok(Kind::Fram),
            _ => Err(Refusal::MalformedInput),
        }
    }
}

/// A script that was read.
#[derive(Debug, Drop)]
pub struct Script {
    pub layout: Layout,
    pub kind: Kind,
    pub cuts: Vec<Cut>,
    pub turns: Vec<Turn<u8, Reply>>,
    /// The refusal of an input whose events end before one that is malformed or missing.
    pub ending: Result<(), Refusal>,
}

/// Why there is no script.
#[derive(Clone, Copy, Debug, PartialEq, Eq)]
pub enum Stop {
    Refused(Refusal),
    OutOfMemory(AllocError),
}

impl From<Refusal> for Stop {
    ghost from_gives = { λ why r. r ≡ Declined why };

    fn from(why: Refusal) -> Stop {
        Stop::Refused(why)
    }
}

impl From<AllocError> for Stop {
    ghost from_gives = { λ error r. r ≡ OutOfMemory error };

    fn from(error: AllocError) -> Stop {
        Stop::OutOfMemory(error)
    }
}

// For the `?` of a caller that pushes to a Vec, whose error gives the item back.
impl<T: Drop> From<AllocFailed<T>> for Stop {
    ghost from_gives = { λ _ r. r ≡ OutOfMemory alloc_error };

    fn from(error: AllocFailed<T>) -> Stop {
        Stop::OutOfMemory(error.into())
    }
}

// A count of 16 bits, the low byte first, and the bytes after it.
fn take_count(bytes: &[u8]) -> Result<(u16, &[u8]), Refusal>
    ensures { GivesCount result bytes.now }
{
    let (count, rest) = bytes
        .split_first_chunk::<2>()
        .ok_or(Refusal::MalformedInput)?;
    Ok((u16::from_le_bytes(*count), rest))
}

// Six bytes are a cut: how many changes it lets finish, and the pattern of the one that it tears.
fn cut(bytes: &[u8; 6]) -> Cut
    ensures { result ≡ the_cut bytes.now }
{
    let [a, b, c, d, low, high] = *bytes;
    Cut {
        count: u32::from_le_bytes([a, b, c, d]),
        pattern: u16::from_le_bytes([low, high]),
    }
}

// So many cuts, one after another, and the bytes after them.
fn take_cuts(alloc: Global, count: u16, bytes: &[u8]) -> Result<(Vec<Cut>, &[u8]), Stop>
    ensures { GivesCuts result count bytes.now }
{
    let (bytes, rest) = bytes
        .split_at_checked(6 * usize::from(count))
        .ok_or(Refusal::MalformedInput)?;
    let (pieces, _) = bytes.as_chunks::<6>();
    Ok((pieces.iter().map(cut).collect(alloc)?, rest))
}

// Five bytes are an event, where they are well formed: a restart, or a byte that was received.
fn event(bytes: &[u8; 5]) -> Option<Call<u8>>
    ensures { result ≡ the_event bytes.now }
{
    match *bytes {
        [0, pin @ 0..=1, low, high, status] => Some(Call::Restart(Inputs {
            pin_high: pin == 1,
            password: u16::from_le_bytes([low, high]),
            status,
        })),
        [1, byte, 0, 0, 0] => Some(Call::Tell(byte)),
        _ => None,
    }
}

// So many events, up to the first that is malformed or missing, and the refusal where there is one.
fn events(
    alloc: Global,
    count: u16,
    bytes: &[u8],
) -> Result<(Vec<Turn<u8, Reply>>, Result<(), Refusal>), AllocError>
    ensures { IfOk result (λ p. the_events count bytes.now ≡ (p.0.items, p.1)) }
{
    let (pieces, _) = bytes.as_chunks::<5>();
    let turns: Vec<Turn<u8, Reply>> = pieces
        .iter()
        .take(usize::from(count))
        .map_while(event)
        .map(|call| Turn {
            call,
            outcome: None,
        })
        .collect(alloc)?;
    let ending = if turns.len() == usize::from(count) {
        Ok(())
    } else {
        Err(Refusal::MalformedInput)
    };
    Ok((turns, ending))
}

/// Reads a whole input.
pub fn read(alloc: Global, input: &[u8]) -> Result<Script, Stop>
    ensures { Gives result (the_script input.now) }
{
    // A `let else`: one pattern tests the count and takes the section apart, which no method with `?` does.
    let [3, k, b, kind, rest @ ..] = input else {
        return Err(Stop::Refused(Refusal::MalformedInput));
    };
    let kind = Kind::try_from(*kind)?;
    let (count, rest) = take_count(rest)?;
    if count > MOST_CUTS {
        return Err(Stop::Refused(Refusal::MalformedInput));
    }
    let (cuts, rest) = take_cuts(alloc, count, rest)?;
    let layout = Layout::new(*k, *b)?;
    let (count, rest) = take_count(rest)?;
    let (turns, ending) = events(alloc, count, rest)?;
    Ok(Script {
        layout,
        kind,
        cuts,
        turns,
        ending,
    })
}
