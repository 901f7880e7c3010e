//! A segment of a run with its controllers, bit by bit, whatever the ports of these are.
#![tactic(auto)]

mod site;

pub use crate::site::{Site, make_bit, make_bits};
