//! Routes of a run as batons that workers pass on through a queue, whatever the mailboxes are.
#![tactic(auto)]

mod account;
mod baton;
mod collecting;
mod courier;
mod dealing;
mod pool;
mod rule;
mod serving;

pub use crate::account::Account;
pub use crate::baton::{Baton, Dealing};
pub use crate::collecting::{collect_all, places_for};
pub use crate::courier::Courier;
pub use crate::dealing::deal_all;
pub use crate::pool::{Placed, PoolSeat};
pub use crate::serving::serve_one;
