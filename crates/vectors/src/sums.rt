//! Published and independently worked out check values of the two sums.
use anyhow::ensure;
use crc::{Crc8, CrcCcitt};

// A list of bytes, by a part and how often it is repeated, and its two sums.
#[derive(Clone, Copy, Debug)]
struct Case {
    name: &'static str,
    unit: &'static [u8],
    times: u16,
    ccitt: u16,
    crc8: u8,
}

const CASES: [Case; 15] = [
    Case {
        name: "no bytes",
        unit: b"",
        times: 1,
        ccitt: 0xFFFF,
        crc8: 0x00,
    },
    Case {
        name: "the byte 0x00",
        unit: b"\x00",
        times: 1,
        ccitt: 0xE1F0,
        crc8: 0x00,
    },
    Case {
        name: "the byte 0xFF",
        unit: b"\xFF",
        times: 1,
        ccitt: 0xFF00,
        crc8: 0xF3,
    },
    Case {
        name: "the letter A",
        unit: b"A",
        times: 1,
        ccitt: 0xB915,
        crc8: 0xC0,
    },
    Case {
        name: "the digits 1 to 9",
        unit: b"123456789",
        times: 1,
        ccitt: 0x29B1,
        crc8: 0xF4,
    },
    Case {
        name: "the command 0x15",
        unit: b"\x15",
        times: 1,
        ccitt: 0xA364,
        crc8: 0x6B,
    },
    Case {
        name: "the command 0x1C",
        unit: b"\x1C",
        times: 1,
        ccitt: 0x324D,
        crc8: 0x54,
    },
    Case {
        name: "the command 0x19",
        unit: b"\x19",
        times: 1,
        ccitt: 0x62E8,
        crc8: 0x4F,
    },
    Case {
        name: "a pangram",
        unit: b"The quick brown fox jumps over the lazy dog",
        times: 1,
        ccitt: 0x8FDD,
        crc8: 0xC1,
    },
    Case {
        name: "the letter A, 256 times",
        unit: b"A",
        times: 256,
        ccitt: 0xEA0B,
        crc8: 0x8E,
    },
    Case {
        name: "an erased segment",
        unit: b"\xFF",
        times: 512,
        ccitt: 0x6995,
        crc8: 0xDE,
    },
    Case {
        name: "a cleared segment",
        unit: b"\x00",
        times: 512,
        ccitt: 0x1634,
        crc8: 0x00,
    },
    Case {
        name: "the digits 1 to 9, 1000 times",
        unit: b"123456789",
        times: 1000,
        ccitt: 0xD57C,
        crc8: 0xD2,
    },
    Case {
        name: "an erased area of 48 segments",
        unit: b"\xFF",
        times: 24576,
        ccitt: 0xFFC0,
        crc8: 0x30,
    },
    Case {
        name: "all bit patterns of a nibble, 65536 bytes",
        unit: b"\x00\x11\x223DUfw\x88\x99\xAA\xBB\xCC\xDD\xEE\xFF",
        times: 4096,
        ccitt: 0xC650,
        crc8: 0x18,
    },
];

/// One line a case. Gives an error where one differs; the count stays with the printing, since a filter would be a second pass.
pub fn run(rt: &HostRuntime) -> anyhow::Result<()> {
    let mut differ = 0;
    for case in CASES {
        let bytes = case.unit.repeat(rt.alloc(), usize::from(case.times))?;
        let ccitt = crc::sum::<CrcCcitt>(bytes.as_slice());
        let crc8 = crc::sum::<Crc8>(bytes.as_slice());
        let verdict = if ccitt == case.ccitt && crc8 == case.crc8 {
            "agrees"
        } else {
            differ += 1;
            "DIFFERS"
        };
        let name = case.name;
        println!(rt; "{name}: CRC-CCITT 0x{ccitt:04X}, CRC-8 0x{crc8:02X}: {verdict}")?;
    }
    let agree = CASES.len() - differ;
    println!(rt; "{agree} agree, {differ} differ")?;
    ensure!(differ == 0, "a check value differs");
    Ok(())
}
