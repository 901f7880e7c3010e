//! The mailboxes of a run's controllers as sets whose sides may stand in threads of their own: how they are opened, and
//! how they are closed once all sides are together again.
#![tactic(auto)]

mod closing;
mod opening;
mod seats;

pub use crate::closing::close_all;
pub use crate::opening::open_all;
pub use crate::seats::{put, take};
