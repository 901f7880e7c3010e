//! The spelling that a sender keeps.

ghost use Rattle.std.specs.Prelude.{◌≡◌, true};
ghost use Rattle.can_frame.specs.Sending.{IsSpelling};

use crate::frame::Frame;
use crate::spelling::Spelling;
use std::marker::Model;

/// A spelling and the frame that it spells. To spell a frame takes some thousands of instructions, and one that loses
/// arbitration or fails is begun again: so it is spelt once.
#[derive(Drop)]
pub struct Spelled {
    // `None` before the first
    frame: Option<Frame>,
    spelling: Spelling,
}

impl Model for Spelled {
    ghost use Rattle.can_frame.specs.declared.spelling.Spelling.{Spelling};

    ghost Value = { Spelling };

    ghost use Rattle.can_frame.specs.Spelled.{IsSpelled};

    ghost view = { λ a. a.spelling };

    ghost invariant = { IsSpelled };
}

impl Spelled {
    /// What a sender holds before its first frame.
    pub fn empty() -> Spelled {
        Spelled {
            frame: None,
            spelling: Spelling::empty(),
        }
    }

    /// The spelling of the last frame.
    #[inline(always)]
    pub fn spelling(&self) -> &Spelling
        ensures { result.now ≡ self.now }
    {
        &self.spelling
    }

    /// Spells this frame, if it is another than the last.
    pub fn spell(&mut self, frame: &Frame)
        ensures { IsSpelling frame.now self.new }
    {
        if self.is_of(frame) {
            return;
        }
        self.spelling = Spelling::of(frame);
        self.frame = Some(*frame);
    }

    /// Whether the last frame is this one.
    fn is_of(&self, frame: &Frame) -> bool
        ensures { result ≡ true → IsSpelling frame.now self.now }
    {
        match self.frame {
            Some(last) => last.is_same(frame),
            None => false,
        }
    }
}
