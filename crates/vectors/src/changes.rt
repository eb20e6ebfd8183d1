//! Changes and cuts of the two simulated memories: what each change answers, and what the caller's bytes are at the end.
use crc::CrcCcitt;
use memory::{Fault, Memory};
use models::{Cells, Cut, FlashCells, FramCells, Simulated};

// What is done to a memory: data and no closure, since it is told as well as done.
#[derive(Clone, Copy, Debug)]
enum Op {
    Write(usize, u8),
    Erase(usize),
    Read(usize),
    Restore,
}

// A caller's bytes, by their number and what they hold at first, its cuts, and what is done in turn.
#[derive(Clone, Copy, Debug)]
struct Scenario {
    name: &'static str,
    length: usize,
    fill: u8,
    cuts: &'static [Cut],
    ops: &'static [Op],
}

const SCENARIOS: [Scenario; 11] = [
    Scenario {
        name: "no cut",
        length: 1024,
        fill: 0xFF,
        cuts: &[],
        ops: &[
            Op::Write(3, 0x0F),
            Op::Write(3, 0xF3),
            Op::Erase(0),
            Op::Write(3, 0xF3),
            Op::Write(1023, 0x80),
            Op::Erase(1),
        ],
    },
    Scenario {
        name: "no segment",
        length: 511,
        fill: 0xFF,
        cuts: &[Cut {
            count: 0,
            pattern: 0x0000,
        }],
        ops: &[Op::Write(0, 0x00), Op::Erase(0), Op::Read(0)],
    },
    Scenario {
        name: "one segment and bytes beyond",
        length: 600,
        fill: 0x00,
        cuts: &[],
        ops: &[
            Op::Erase(0),
            Op::Write(511, 0x55),
            Op::Write(512, 0x55),
            Op::Erase(1),
            Op::Read(511),
            Op::Read(512),
        ],
    },
    Scenario {
        name: "105 segments",
        length: 53760,
        fill: 0x33,
        cuts: &[],
        ops: &[
            Op::Erase(104),
            Op::Write(53759, 0x12),
            Op::Write(53760, 0x12),
            Op::Erase(105),
            Op::Read(53759),
        ],
    },
    Scenario {
        name: "more than 105 segments",
        length: 54272,
        fill: 0x33,
        cuts: &[],
        ops: &[
            Op::Erase(105),
            Op::Write(53760, 0x12),
            Op::Erase(104),
            Op::Read(53760),
        ],
    },
    Scenario {
        name: "places near the largest number",
        length: 512,
        fill: 0xFF,
        cuts: &[Cut {
            count: 0,
            pattern: 0x0000,
        }],
        ops: &[
            Op::Write(usize::MAX, 0x00),
            Op::Erase(usize::MAX),
            Op::Erase(usize::MAX / 512 + 1),
            Op::Read(usize::MAX),
            Op::Write(0, 0x00),
        ],
    },
    Scenario {
        name: "a write torn at once",
        length: 512,
        fill: 0xFF,
        cuts: &[Cut {
            count: 0,
            pattern: 0x0110,
        }],
        ops: &[
            Op::Write(3, 0x07),
            Op::Write(3, 0x07),
            Op::Erase(0),
            Op::Write(512, 0x00),
            Op::Restore,
            Op::Write(3, 0x07),
        ],
    },
    Scenario {
        name: "an erase torn after one change",
        length: 600,
        fill: 0x05,
        cuts: &[Cut {
            count: 1,
            pattern: 0x0112,
        }],
        ops: &[
            Op::Write(0, 0x04),
            Op::Erase(0),
            Op::Read(0),
            Op::Read(273),
            Op::Read(274),
            Op::Restore,
        ],
    },
    Scenario {
        name: "an erase torn and made again",
        length: 512,
        fill: 0x05,
        cuts: &[Cut {
            count: 0,
            pattern: 0xFFFF,
        }],
        ops: &[
            Op::Erase(0),
            Op::Read(510),
            Op::Read(511),
            Op::Restore,
            Op::Erase(0),
        ],
    },
    Scenario {
        name: "cuts in a row",
        length: 512,
        fill: 0xF0,
        cuts: &[
            Cut {
                count: 0,
                pattern: 0x00FF,
            },
            Cut {
                count: 0,
                pattern: 0x0000,
            },
            Cut {
                count: 1,
                pattern: 0x0201,
            },
        ],
        ops: &[
            Op::Write(0, 0x10),
            Op::Restore,
            Op::Write(1, 0x10),
            Op::Restore,
            Op::Write(2, 0x10),
            Op::Erase(0),
            Op::Restore,
            Op::Write(4, 0x01),
        ],
    },
    Scenario {
        name: "the supply returns while it is on",
        length: 512,
        fill: 0xFF,
        cuts: &[Cut {
            count: 1,
            pattern: 0x0001,
        }],
        ops: &[
            Op::Restore,
            Op::Write(0, 0x00),
            Op::Restore,
            Op::Write(1, 0x00),
            Op::Restore,
            Op::Restore,
            Op::Write(1, 0x00),
        ],
    },
];

// How a change ended, and the byte that is read at its first place after it.
fn print_change(rt: &HostRuntime, outcome: Result<(), Fault>, byte: u8) -> anyhow::Result<()> {
    match outcome {
        Ok(()) => println!(rt; "finished, reads 0x{byte:02X}")?,
        Err(fault) => {
            let number = fault.number();
            println!(rt; "refused with {number}, {fault}, reads 0x{byte:02X}")?;
        }
    }
    Ok(())
}

fn play<M: Memory>(rt: &HostRuntime, memory: &mut M, ops: &[Op]) -> anyhow::Result<()> {
    let size = memory.size();
    println!(rt; "  size {size}")?;
    for op in ops {
        match *op {
            Op::Write(place, byte) => {
                print!(rt; "  write 0x{byte:02X} at {place}: ")?;
                let outcome = memory.write(place, byte);
                print_change(rt, outcome, memory.read(place))?;
            }
            Op::Erase(segment) => {
                print!(rt; "  erase segment {segment}: ")?;
                let outcome = memory.erase(segment);
                print_change(rt, outcome, memory.read(segment.saturating_mul(512)))?;
            }
            Op::Read(place) => {
                let byte = memory.read(place);
                println!(rt; "  read {place}: 0x{byte:02X}")?;
            }
            Op::Restore => {
                memory.restore();
                println!(rt; "  the supply returns")?;
            }
        }
    }
    Ok(())
}

// What the caller's bytes are once the memory is gone, those beyond it too.
fn print_sum(rt: &HostRuntime, bytes: &[u8]) -> anyhow::Result<()> {
    let sum = crc::sum::<CrcCcitt>(bytes);
    println!(rt; "  all bytes have the CRC-CCITT sum 0x{sum:04X}")?;
    Ok(())
}

// A scenario in one technology.
fn run_in<C: Cells>(rt: &HostRuntime, scenario: Scenario, technology: &str) -> anyhow::Result<()> {
    let mut bytes = vec![in rt.alloc(); scenario.fill; scenario.length]?;
    let name = scenario.name;
    println!(rt; "{name}, {technology}")?;
    let mut memory: Simulated<C> = Simulated::new(bytes.as_mut_slice(), scenario.cuts);
    play(rt, &mut memory, scenario.ops)?;
    print_sum(rt, bytes.as_slice())
}

pub fn run(rt: &HostRuntime) -> anyhow::Result<()> {
    for scenario in SCENARIOS {
        run_in::<FlashCells>(rt, scenario, "flash")?;
        run_in::<FramCells>(rt, scenario, "FRAM")?;
    }
    Ok(())
}
