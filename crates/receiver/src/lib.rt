//! The receiver of MSPBoot's frames: bytes come one at a time, and each continues a frame, completes it or is an error.
#![tactic(auto)]

ghost use Rattle.std.specs.Prelude.{◌+◌, ◌<◌, ◌≤◌, length};
ghost use Rattle.receiver.specs.Progress.{need_of};

mod receive;

use arrayvec::ArrayVec;

// What comes next: the header, the payload's length, or the rest of a frame, which is so many bytes of payload and their sum.
#[derive(Clone, Copy, Debug, PartialEq, Eq)]
enum Receiving {
    Header,
    Length,
    Rest { need: u8 },
}

/// A receive state, and what has come after the length; once a good frame is complete, its payload. There is no heap here.
#[derive(Drop)]
pub struct Receiver {
    state: Receiving,
    rest: ArrayVec<u8, 21>,
    ghost some: { 0 < need_of state },
    ghost short: { need_of state ≤ 19 },
    ghost more: { length rest.items < need_of state + 2 },
}
