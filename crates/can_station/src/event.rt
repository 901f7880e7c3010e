//! The events of a record: what happened at a node at a bit.

ghost use Rattle.std.specs.Prelude.{◌≡◌, ◌≢◌, true, false};
ghost use Rattle.can_station.specs.EventKinds.{parts_in};

use crate::tag::Tag;
use can_frame::Frame;
use can_node::ErrorKind;
use std::marker::Model;
use std::mem::size_of;

/// A request of a route.
#[derive(Clone, Copy, Debug, PartialEq, Eq)]
pub struct Label {
    /// The route, as its controller's mailboxes number it.
    pub route: u8,
    /// The number of the request, which rises from one request of the route to the next.
    pub number: u32,
}

/// What happened at a node. A start is the number of the SOF bit, also where another node drove it. The label is that
/// of a controller's request; a talker's frames have none.
#[derive(Clone, Copy, Debug, PartialEq, Eq)]
pub enum EventKind {
    /// The bit is the first that the node drives of this frame.
    Started {
        /// The frame.
        frame: Frame,
        /// The request that it comes from.
        label: Option<Label>,
    },
    /// The node received a frame of another node.
    Took {
        /// The frame's start.
        start: u64,
        /// The frame.
        frame: Frame,
    },
    /// The node's own frame was sent.
    Completed {
        /// The frame's start.
        start: u64,
        /// The frame.
        frame: Frame,
        /// The request that it comes from.
        label: Option<Label>,
    },
    /// The node lost arbitration.
    Lost {
        /// The start of the frame that it sent.
        start: u64,
    },
    /// The node signals an error from the next bit on.
    Error(ErrorKind),
    /// The node went bus off.
    Off,
    /// The node is back from bus off.
    Back,
    /// The transmission of this request failed at this bit, after its abort had been requested (ABRQ): its mailbox is
    /// empty, and it is not sent again.
    Reaped(Label),
}

/// An event of a record: what happened at one node at one bit.
#[derive(Clone, Copy, Debug, PartialEq, Eq)]
pub struct Event {
    bit: u64,
    // flat, with 0 in each part that this kind of event has not, so that an event has 40 bytes and not 64:
    // lines are most of what a run keeps
    start: u64,
    frame: Frame,
    number: u32,
    node: u16,
    route: u8,
    tag: Tag,
}

const _: () = prove!(size_of::<Event>() == 40);

impl Model for Event {
    ghost use Rattle.can_station.specs.EventValues.{EventValue};

    ghost Value = { EventValue };

    ghost use Rattle.can_station.specs.EventParts.{event_view, event_parts, IsEvent};

    ghost view = { event_view };

    ghost invariant = { IsEvent };

    ghost inverse = { event_parts };

    ghost inverse_ok = { λ a is. is };
}

impl Event {
    /// Returns the event that this happened at the node with this index in the order of nodes, at the bit of this
    /// number.
    #[inline(always)]
    pub fn new(bit: u64, node: u16, kind: EventKind) -> Event
        ensures { result ≡ record { bit = bit; node = node; kind = kind } }
    {
        let (tag, start, frame, label) = parts_of(&kind);
        Event {
            bit,
            start,
            frame,
            number: label.number,
            node,
            route: label.route,
            tag,
        }
    }

    /// Returns the number of the bit.
    #[inline(always)]
    pub fn bit(&self) -> u64
        ensures { result ≡ self.now.bit }
    {
        self.bit
    }

    /// Returns the node's index in the order of nodes.
    #[inline(always)]
    pub fn node(&self) -> u32
        ensures { result ≡ self.now.node }
    {
        u32::from(self.node)
    }

    /// Returns whether the same happened as in another event, whatever the nodes and bits of both are.
    #[inline(always)]
    pub fn tells_as(&self, other: &Event) -> bool
        ensures same { result ≡ true → self.now.kind ≡ other.now.kind }
        ensures another { result ≡ false → self.now.kind ≢ other.now.kind }
    {
        // part by part: neither is put together for it
        self.tag == other.tag
            && self.start == other.start
            && self.frame.is_same(&other.frame)
            && self.number == other.number
            && self.route == other.route
    }

    /// Returns what happened.
    #[inline(always)]
    pub fn kind(&self) -> EventKind
        ensures { result ≡ self.now.kind }
    {
        let start = self.start;
        let frame = self.frame;
        let label = Label {
            route: self.route,
            number: self.number,
        };
        match self.tag {
            Tag::Started => EventKind::Started { frame, label: None },
            Tag::StartedRequest => EventKind::Started {
                frame,
                label: Some(label),
            },
            Tag::Took => EventKind::Took { start, frame },
            Tag::Completed => EventKind::Completed {
                start,
                frame,
                label: None,
            },
            Tag::CompletedRequest => EventKind::Completed {
                start,
                frame,
                label: Some(label),
            },
            Tag::Lost => EventKind::Lost { start },
            Tag::BitError => EventKind::Error(ErrorKind::Bit),
            Tag::StuffError => EventKind::Error(ErrorKind::Stuff),
            Tag::FormError => EventKind::Error(ErrorKind::Form),
            Tag::AckError => EventKind::Error(ErrorKind::Ack),
            Tag::CrcError => EventKind::Error(ErrorKind::Crc),
            Tag::Off => EventKind::Off,
            Tag::Back => EventKind::Back,
            Tag::Reaped => EventKind::Reaped(label),
        }
    }
}

/// The label of an event without a request.
const NO_LABEL: Label = Label {
    route: 0,
    number: 0,
};

/// Returns the tag of this kind of event, its start, its frame and its request.
#[inline(always)]
fn parts_of(kind: &EventKind) -> (Tag, u64, Frame, Label)
    ensures { result ≡ parts_in kind.now }
{
    match kind {
        EventKind::Started { frame, label: None } => (Tag::Started, 0, *frame, NO_LABEL),
        EventKind::Started {
            frame,
            label: Some(label),
        } => (Tag::StartedRequest, 0, *frame, *label),
        EventKind::Took { start, frame } => (Tag::Took, *start, *frame, NO_LABEL),
        EventKind::Completed {
            start,
            frame,
            label: None,
        } => (Tag::Completed, *start, *frame, NO_LABEL),
        EventKind::Completed {
            start,
            frame,
            label: Some(label),
        } => (Tag::CompletedRequest, *start, *frame, *label),
        EventKind::Lost { start } => (Tag::Lost, *start, Frame::default(), NO_LABEL),
        EventKind::Error(error) => (Tag::of_error(*error), 0, Frame::default(), NO_LABEL),
        EventKind::Off => (Tag::Off, 0, Frame::default(), NO_LABEL),
        EventKind::Back => (Tag::Back, 0, Frame::default(), NO_LABEL),
        EventKind::Reaped(label) => (Tag::Reaped, 0, Frame::default(), *label),
    }
}
