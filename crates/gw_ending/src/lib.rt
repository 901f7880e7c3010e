//! A run behind its last bit, whose mailboxes are closed: the report on its segments and routes, whatever the mailboxes
//! were.
#![tactic(auto)]

mod closed;
mod closing;
mod ending;
mod route_end;
mod settling;
mod telling;

pub use crate::closed::{Closed, ClosedPort, ClosedSite};
pub use crate::ending::end_run;
