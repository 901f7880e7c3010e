//! What each side of a FIFO knows.
use crate::rx_frame::RxFrame;
use std::collections::LinkedList;

/// What a side may do, and what went through it. Contracts alone see it: no value of it is made.
pub(crate) struct Log {
    /// Whether it may offer. If so, `stored` is what was stored.
    pub(crate) offers: bool,
    /// Whether it may release. If so, `released` is what was released.
    pub(crate) releases: bool,
    pub(crate) stored: LinkedList<RxFrame>,
    pub(crate) released: LinkedList<RxFrame>,
    /// What its calls gave or stored, in order; `None` where they gave or stored nothing.
    pub(crate) calls: LinkedList<Option<RxFrame>>,
}
