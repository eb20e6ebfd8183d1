//! A layout, with the numbers that one can have.
ghost use Rattle.std.specs.Prelude.{◌≤◌};

mod places;

/// The segments of an application and those of the boot area.
#[derive(Clone, Copy, Debug, PartialEq, Eq)]
pub struct Layout {
    k: u8,
    b: u8,
    ghost some: { 1 ≤ k },
    ghost most: { k ≤ 48 },
    ghost booted: { 1 ≤ b },
    ghost few: { b ≤ 8 },
}
