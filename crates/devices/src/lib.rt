//! Devices: what bytes are read from, and what bytes are written to.
//!
//! Keeps: Reading and writing know no line and no command.
#![tactic(auto)]

mod count;
mod device;
mod history;
mod laws;
mod memory;
mod reading;
mod stream;
mod synced;
mod wire;

pub use device::{Failed, Feed, Outlet, write_all};
pub use history::History;
pub use laws::law_slices;
pub use memory::{MemFeed, MemOutlet};
pub use reading::{READ_BUFFER, Stop, Taker, pump};
pub use stream::{FromRead, ToWrite};
pub use synced::{Disk, Synced};
pub use wire::{Arrival, Wire};
