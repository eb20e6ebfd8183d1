//! How a memory is divided into areas.
#![tactic(auto)]

mod divided;
pub mod mark;

pub use divided::Layout;
