//! What goes through the post.
use can_frame::Frame;

/// A post: what a route asks of the bus side.
#[derive(Clone, Copy, Debug, Default, PartialEq, Eq)]
pub struct Posting {
    /// The route that asks, from 0 on.
    pub route: u8,
    /// The number that the route gave its request.
    pub number: u32,
    /// What is asked.
    pub what: Asks,
}

/// What a post asks for.
#[derive(Clone, Copy, Debug, Default, PartialEq, Eq)]
pub enum Asks {
    /// That this frame is transmitted.
    Transmit(Frame),
    /// That the request ends (RM0008, bxCAN, "Abort").
    #[default]
    Abort,
}
