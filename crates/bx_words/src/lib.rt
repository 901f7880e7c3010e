//! The packed words of a controller's three transmit mailboxes: what each bit says, and what each step makes of them.
#![tactic(auto)]

mod lanes;
mod orders;
mod payloads;

pub use crate::lanes::{
    fail_mask, lane, lane_mask, with_abort, with_claim, with_request, with_schedule, with_start,
};
pub use crate::orders::{least, oldest};
pub use crate::payloads::{key, pack, unpack};
