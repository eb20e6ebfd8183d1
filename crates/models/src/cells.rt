//! The two technologies of memory.
ghost use Rattle.std.specs.Prelude.{◌≡◌};
ghost use Rattle.models.specs.Cells.{Cells as CellRules, Sound, flash, fram};
ghost use Rattle.models.specs.Technologies.{flash_sound, fram_sound};

/// How a write mixes two bytes, and what a torn change leaves under a pattern.
pub trait Cells {
    ghost rules: { CellRules };

    fn mix(old: u8, new: u8) -> u8
        ensures { result ≡ rules.mix old new };

    fn torn_write(pattern: u16, old: u8, new: u8) -> u8
        ensures { result ≡ rules.torn_write pattern old new };

    fn torn_erase(pattern: u16, segment: &mut [u8])
        ensures { segment.new ≡ rules.torn_erase pattern segment.old };

    // What each technology has to show.
    ghost sound: { Sound rules };
}

/// Flash can only clear bits.
#[derive(Clone, Copy, Debug)]
pub struct FlashCells;

impl Cells for FlashCells {
    ghost rules = { flash };

    ghost sound = { flash_sound };

    fn mix(old: u8, new: u8) -> u8 {
        old & new
    }

    fn torn_write(pattern: u16, old: u8, new: u8) -> u8 {
        let [kept, _] = pattern.to_le_bytes();
        old & (new | kept)
    }

    fn torn_erase(pattern: u16, segment: &mut [u8]) {
        let [raised, _] = pattern.to_le_bytes();
        for byte in segment.iter_mut() {
            *byte |= raised;
        }
    }
}

/// FRAM takes any byte.
#[derive(Clone, Copy, Debug)]
pub struct FramCells;

impl Cells for FramCells {
    ghost rules = { fram };

    ghost sound = { fram_sound };

    fn mix(_old: u8, new: u8) -> u8 {
        new
    }

    fn torn_write(_pattern: u16, old: u8, _new: u8) -> u8 {
        old
    }

    fn torn_erase(pattern: u16, segment: &mut [u8]) {
        let reached = usize::from(pattern % 512).min(segment.len());
        segment[..reached].fill(0xFF);
    }
}
