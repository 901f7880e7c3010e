//! What can happen to the three transmit mailboxes.
use can_frame::Frame;

/// One event of a controller's mailboxes (RM0008, bxCAN, "Transmission handling").
/// Routes make the events that name a route, the bus side makes the others.
/// A route is below the core's number of routes, and a mailbox is 0, 1 or 2.
#[derive(Clone, Copy, Debug, PartialEq, Eq)]
pub enum Event {
    /// A route takes an empty mailbox, to fill it. Refused: `NotEmpty`.
    Claim {
        /// The route that claims.
        route: u8,
        /// The mailbox that is claimed.
        mailbox: u8,
    },
    /// A route requests the transmission of the frame in the mailbox that it fills.
    /// Refused, in this order: `NotOwner`, `NumberOrder`, `Memory`.
    Request {
        /// The route that requests.
        route: u8,
        /// The mailbox that the route fills.
        mailbox: u8,
        /// Above the route's last number, and at most 16,777,215.
        number: u32,
        /// The frame to be sent.
        frame: Frame,
    },
    /// A route gives back the mailbox that it fills. Refused: `NotOwner`.
    Withdraw {
        /// The route that withdraws.
        route: u8,
        /// The mailbox that the route fills.
        mailbox: u8,
    },
    /// A pending request becomes the next to be sent (RM0008, bxCAN, "Transmit priority"). With TXFP set
    /// it is the oldest request. With TXFP clear it is the pending one of the lowest
    /// `Frame::arbitration_key`, of equal keys the one in the lowest mailbox; and no request is scheduled
    /// or transmitting. Once scheduled it stays so, whatever is requested later.
    /// Refused, in this order: `WrongState`, `NotOldest`.
    Schedule {
        /// The mailbox of a pending request.
        mailbox: u8,
    },
    /// The transmission starts, unless an abort was asked. Refused: `WrongState`.
    Start {
        /// The mailbox of a scheduled request.
        mailbox: u8,
    },
    /// The frame was sent, also where an abort was asked meanwhile. Refused: `WrongState`.
    Complete {
        /// The mailbox that transmits.
        mailbox: u8,
    },
    /// An error or lost arbitration ended the transmission: it is scheduled again.
    /// Refused: `WrongState`.
    Fail {
        /// The mailbox that transmits.
        mailbox: u8,
    },
    /// A route takes its request back. Pending or scheduled it ends at once; while it is
    /// transmitting the abort is asked (RM0008, bxCAN, "Abort").
    /// Refused, in this order: `NotOwner`, `WrongState`.
    Abort {
        /// The route whose request it is.
        route: u8,
        /// The mailbox of the request.
        mailbox: u8,
    },
    /// A request that failed while an abort was asked ends. Refused: `WrongState`.
    Reap {
        /// The mailbox of a scheduled request whose abort was asked.
        mailbox: u8,
    },
}
