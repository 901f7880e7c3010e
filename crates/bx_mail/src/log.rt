//! What each side of a post knows.
use crate::posting::Posting;
use std::collections::LinkedList;

/// What a side may do, and what went through it. Contracts alone see it: no value of it is made.
pub(crate) struct Log {
    /// Whether it may post. If so, it posts for the route `from`, and `sent` is all that was posted for it.
    pub(crate) sends: bool,
    pub(crate) from: u64,
    pub(crate) sent: LinkedList<Posting>,
    /// Whether it may take posts. If so, `got` is what was taken, of the first `made` routes in all; and `known` is
    /// what was posted by those routes whose sides it took in, the routes in order.
    pub(crate) gets: bool,
    pub(crate) got: LinkedList<Posting>,
    pub(crate) made: u64,
    pub(crate) known: LinkedList<LinkedList<Posting>>,
}
