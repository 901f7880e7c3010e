//! What closing the mailboxes over a post gives.
use arrayvec::ArrayVec;
use bx_shared::RouteCounts;
use can_frame::Frame;

/// What became of the requests at mailboxes over a post: what `Post::close` returns.
#[derive(Drop)]
pub struct PostClosed {
    /// The counts of each route, in order: how many requests it made, and how many of them ended in which way.
    pub routes: ArrayVec<RouteCounts, 8>,
    /// The requests that wait, each as its route, its number and its frame: those in the mailboxes, the oldest first,
    /// the one aside, and those in posts, front to back. There are twelve at most.
    pub left: ArrayVec<(u8, u32, Frame), 12>,
}
