//! A controller of bxCAN as its segment sees it: mailboxes, filter banks and receive FIFOs in one.
#![tactic(auto)]

mod intake;
mod port;

pub use crate::intake::Intake;
pub use crate::port::Port;
