//! Segments and routes of a run, each in a thread of its own, whatever the mailboxes between them are.
#![tactic(auto)]

mod clock_seat;
mod clock_steps;
mod joining;
mod plays;
mod pool_promise;
mod pool_run;
mod pool_threads;
mod site_promise;
mod site_run;
mod site_threads;
mod thread_fault;
mod threads;
mod views;

pub use crate::clock_seat::ClockSeat;
pub use crate::thread_fault::ThreadFault;
pub use crate::threads::run_in_threads;
