//! What the filters compare of a frame.
ghost use Rattle.std.specs.Prelude.{◌≡◌};
ghost use Rattle.bx_rx.specs.Images.{image32, image16};

use can_frame::Frame;

/// The two images of a frame (RM0008, bxCAN, "Filter bank scale and mode configuration").
#[derive(Clone, Copy)]
pub(crate) struct Images {
    /// STID at 31:21, EXID at 20:3, IDE at 2, RTR at 1, and bit 0 is zero.
    pub(crate) wide: u32,
    /// STID at 15:5, RTR at 4, IDE at 3, EXID[17:15] at 2:0.
    pub(crate) narrow: u32,
}

impl Images {
    pub(crate) fn of(frame: &Frame) -> Images
        ensures wide { result.wide ≡ image32 frame.now }
        ensures narrow { result.narrow ≡ image16 frame.now }
    {
        let id = frame.id();
        id.facts();
        let number = id.number();
        let is_extended = id.is_extended();
        // the EXID bits of a standard frame count as zero
        let (stid, exid) = if is_extended {
            (number / 0x4_0000, number % 0x4_0000)
        } else {
            (number, 0)
        };
        let ide = u32::from(is_extended);
        let rtr = u32::from(frame.is_remote());
        Images {
            wide: (stid << 21) + (exid << 3) + (ide << 2) + (rtr << 1),
            narrow: (stid << 5) + (rtr << 4) + (ide << 3) + (exid >> 15),
        }
    }
}
