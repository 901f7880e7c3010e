//! Frames of classical CAN and their form on the bus: identifiers, data and remote frames, the CRC,
//! a sender's levels, and a receiver's reading of them level by level.
#![tactic(auto)]

mod crc;
mod error;
mod frame;
mod identifier;
mod key;
pub mod laws;
mod level_run;
mod memory;
mod reader;
mod reading;
mod rewrite;
mod sending;
mod spelled;
mod spelling;
mod step;
mod stuffing;
mod tail;

pub use crate::crc::crc15;
pub use crate::error::FrameError;
pub use crate::frame::Frame;
pub use crate::identifier::Id;
pub use crate::level_run::LevelRun;
pub use crate::memory::Memory;
pub use crate::reader::Reader;
pub use crate::rewrite::{Rewrite, rewritten};
pub use crate::sending::wire;
pub use crate::spelled::Spelled;
pub use crate::spelling::{SendBit, Spelling};
pub use crate::step::{FaultKind, Step};
