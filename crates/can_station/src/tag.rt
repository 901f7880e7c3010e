//! Kinds of events without what belongs to them.

ghost use Rattle.std.specs.Prelude.{◌≡◌};
ghost use Rattle.can_station.specs.EventKinds.{tag_of_error};

use can_node::ErrorKind;

/// The kind of an event without its start, frame and request. Frames of talkers and frames of requests have tags of
/// their own.
#[derive(Clone, Copy, Debug, PartialEq, Eq)]
pub(crate) enum Tag {
    Started,
    StartedRequest,
    Took,
    Completed,
    CompletedRequest,
    Lost,
    BitError,
    StuffError,
    FormError,
    AckError,
    CrcError,
    Off,
    Back,
    Reaped,
}

impl Tag {
    /// Returns the tag of this error.
    pub(crate) fn of_error(error: ErrorKind) -> Tag
        ensures { result ≡ tag_of_error error }
    {
        match error {
            ErrorKind::Bit => Tag::BitError,
            ErrorKind::Stuff => Tag::StuffError,
            ErrorKind::Form => Tag::FormError,
            ErrorKind::Ack => Tag::AckError,
            ErrorKind::Crc => Tag::CrcError,
        }
    }
}
