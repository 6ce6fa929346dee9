#![tactic(auto)]
//! A device in memory, for tests. It records its calls, splits reads and writes, and fails at a chosen call.
//!
//! - [`MemoryDevice`]: the device.
//! - [`Plan`]: how it splits bytes and which call fails; with [`SMOOTH`] none fails.
//! - [`Record`]: a call.

mod device;
mod opened;
mod plan;
mod record;
mod replay;
mod sight;
#[cfg(test)]
mod tests;

pub use device::MemoryDevice;
pub use plan::{Plan, SMOOTH};
pub use record::Record;
