//! Data frames and remote frames.

ghost use Rattle.std.specs.Prelude.{◌≡◌, ◌<◌, ◌≤◌, MatchResult, length, true, false};
ghost use Rattle.can_frame.specs.Frames.{IsFrameValue, AllBytes, data_bytes, remote_code};
ghost use Rattle.can_frame.specs.Fields.{is_remote, length_code, bytes_of};

use crate::error::FrameError;
use crate::identifier::Id;
use std::marker::Model;

/// A data frame with its bytes, or a remote frame with its data length code (Bosch CAN
/// Specification 2.0, part B, 3.2.1 DATA FRAME and 3.2.2 REMOTE FRAME). Two frames are equal where
/// identifier, kind, data length code and bytes are. The default is the standard data frame with
/// identifier 0 and no bytes.
#[derive(Clone, Copy, Debug, Default, PartialEq, Eq)]
pub struct Frame {
    // the identifier's number and format stand here themselves, so that a frame has 16 bytes and not 20
    number: u32,
    is_extended: bool,
    is_remote: bool,
    dlc: u8,
    // cells behind the frame's bytes are 0, so that equal frames are equal field by field
    bytes: [u8; 8],
}

impl Model for Frame {
    ghost use Rattle.can_frame.specs.Frames.{FrameValue};

    ghost Value = { FrameValue };

    ghost use Rattle.can_frame.specs.FrameParts.{frame_view, frame_parts, IsFrame, parts-view};

    ghost view = { frame_view };

    ghost invariant = { IsFrame };

    ghost inverse = { frame_parts };

    ghost inverse_ok = { parts-view };
}

/// What every list of bytes is.
fn are_bytes(bytes: &[u8])
    ensures { AllBytes bytes.now }
{
    let _count = bytes.len();
}

impl Frame {
    /// A data frame with these bytes, whose data length code is their number.
    ///
    /// More than eight bytes are refused as `TooLong`, and nothing else is.
    pub fn with_bytes(id: Id, bytes: &[u8]) -> Result<Frame, FrameError>
        ensures { MatchResult result
            (λ frame. (length bytes.now ≤ 8)
            × (frame ≡ record { id = id; content = data_bytes bytes.now }))
            (λ e. (8 < length bytes.now) × (e ≡ FrameError.TooLong)) }
    {
        if bytes.len() > 8 {
            return Err(FrameError::TooLong);
        }
        let mut cells = [0u8; 8];
        cells[..bytes.len()].copy_from_slice(bytes);
        Ok(Frame {
            number: id.number(),
            is_extended: id.is_extended(),
            is_remote: false,
            dlc: bytes.len() as u8,
            bytes: cells,
        })
    }

    /// A remote frame with this data length code. It carries no bytes, whatever the code.
    ///
    /// A code above 8 is refused as `Dlc`, and nothing else is.
    pub fn remote(id: Id, dlc: u8) -> Result<Frame, FrameError>
        ensures { MatchResult result
            (λ frame. (dlc ≤ 8) × (frame ≡ record { id = id; content = remote_code dlc }))
            (λ e. (8 < dlc) × (e ≡ FrameError.Dlc)) }
    {
        if dlc > 8 {
            return Err(FrameError::Dlc);
        }
        Ok(Frame {
            number: id.number(),
            is_extended: id.is_extended(),
            is_remote: true,
            dlc,
            bytes: [0; 8],
        })
    }

    /// What every frame is: its identifier fits, it has at most eight bytes or a code of at most 8,
    /// and each byte is one. Does nothing; a proof that has a `Frame` calls it to learn this.
    pub fn facts(&self)
        ensures { IsFrameValue self.now }
    {
        self.id().facts();
        are_bytes(self.bytes());
        let _dlc = self.dlc();
    }

    /// Whether the other is the same frame.
    pub fn is_same(&self, other: &Frame) -> bool
        ensures same { result ≡ true → self.now ≡ other.now }
        ensures another { result ≡ false → self.now ≡ other.now → ⊥ }
    {
        *self == *other
    }

    /// The identifier.
    pub fn id(&self) -> Id
        ensures { result ≡ self.now.id }
    {
        Id::with_format(self.number, self.is_extended)
    }

    /// The same frame under another identifier: kind, data length code and bytes stay.
    pub fn with_id(&self, id: Id) -> Frame
        ensures { result ≡ record self.now { id = id } }
    {
        Frame {
            number: id.number(),
            is_extended: id.is_extended(),
            ..*self
        }
    }

    /// Whether it is a remote frame, so that RTR is recessive on the bus.
    pub fn is_remote(&self) -> bool
        ensures { result ≡ is_remote self.now.content }
    {
        self.is_remote
    }

    /// The data length code, 0 to 8: the number of bytes of a data frame, the code of a remote one.
    pub fn dlc(&self) -> u8
        ensures value { result ≡ length_code self.now.content }
        ensures few { result ≤ 8 }
    {
        self.dlc
    }

    /// The bytes in the order of the bus, at most eight; none in a remote frame.
    pub fn bytes(&self) -> &[u8]
        ensures value { result.now ≡ bytes_of self.now.content }
        ensures few { length result.now ≤ 8 }
    {
        if self.is_remote {
            &[]
        } else {
            &self.bytes[..usize::from(self.dlc)]
        }
    }
}
