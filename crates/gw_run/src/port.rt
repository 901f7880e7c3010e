//! The controllers and segments of a run in one thread.

use bx_core::PlainMail;

/// A controller with mailboxes for one thread.
pub(crate) type Port = bx_controller::Port<PlainMail>;

/// A segment with such controllers.
pub(crate) type Site = gw_site::Site<Port>;
