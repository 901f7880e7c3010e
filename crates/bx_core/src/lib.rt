//! The mailbox core of one controller.
#![tactic(auto)]

mod answer;
mod end;
mod entry;
mod event;
mod gate;
pub mod laws;
mod left;
mod lists;
mod mailbox_set;
mod mailboxes;
mod plain_mail;
mod plain_route;
mod point;
mod queue;
mod refused;
mod route_tx;
mod status;
mod steps;
mod tx_bus;
mod waiting;

pub use crate::answer::{AbortAnswer, NumberTooLarge, Sent};
pub use crate::entry::Entry;
pub use crate::event::Event;
pub use crate::gate::{Gate, NoGate};
pub use crate::left::Left;
pub use crate::mailbox_set::Mailboxes;
pub use crate::mailboxes::Core;
pub use crate::plain_mail::PlainMail;
pub use crate::plain_route::PlainRoute;
pub use crate::point::{Heard, Point};
pub use crate::refused::Refused;
pub use crate::route_tx::RouteTx;
pub use crate::status::Status;
pub use crate::tx_bus::TxBus;
pub use crate::waiting::Waiting;
