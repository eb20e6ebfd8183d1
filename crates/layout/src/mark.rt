//! The mark: what the byte at place 0 says.

/// The mark of an approved image.
pub const APPROVED: u8 = 0x5A;

/// The mark where none is approved.
pub const ERASED: u8 = 0xFF;
