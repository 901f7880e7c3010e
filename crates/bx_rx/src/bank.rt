//! One filter bank.
ghost use Rattle.std.specs.Prelude.{◌≡◌, ◌≤◌, ◌↔◌, IsTrue, length};
ghost use Rattle.std.specs.List.{position_from};
ghost use Rattle.bx_rx.specs.Bank.{masked, Admits, low, high, filters_of, at_scale};
ghost use Rattle.bx_rx.specs.Bank.{IsFirstAmong, IsFirstMatch, Outranks, unlisted};

use crate::images::Images;
use crate::mode::Mode;
use crate::scale::Scale;
use can_frame::Frame;
use std::marker::Model;

/// A filter bank: two 32-bit registers, and how they are read (RM0008, bxCAN, "Filter bank scale and
/// mode configuration"). Contracts see its six settings.
#[derive(Clone, Copy, Debug, PartialEq, Eq)]
pub struct Bank {
    scale: Scale,
    mode: Mode,
    fifo: u8,
    active: bool,
    r1: u32,
    r2: u32,
}

impl Model for Bank {
    ghost use Rattle.bx_rx.specs.Bank.{BankValue};

    ghost Value = { BankValue };

    ghost use Rattle.bx_rx.specs.BankParts.{bank_view, bank_parts, IsBank};

    ghost view = { bank_view };

    ghost invariant = { IsBank };

    ghost inverse = { bank_parts };
}

impl Bank {
    /// A bank with this scale (FSC), mode (FBM), FIFO assignment (FFA), activation (FACT) and
    /// registers. The FIFO is 0 or 1.
    pub fn new(scale: Scale, mode: Mode, fifo: u8, active: bool, r1: u32, r2: u32) -> Bank
        requires { fifo ≤ 1 }
        ensures { result ≡ record { scale = scale; mode = mode; fifo = fifo; active = active; r1 = r1; r2 = r2 } }
    {
        Bank {
            scale,
            mode,
            fifo,
            active,
            r1,
            r2,
        }
    }

    /// A bank that nobody set.
    pub(crate) fn unlisted() -> Bank
        ensures { result ≡ unlisted }
    {
        Bank::new(Scale::Bits16, Mode::Mask, 0, false, 0, 0)
    }

    /// The lowest place in the bank, from 0, of a filter that matches the frame, or `None` where no
    /// filter of the bank does. Whether the bank is active is not looked at: `Banks::find` does that.
    pub fn matches(&self, frame: &Frame) -> Option<u8>
        ensures { IsFirstMatch self.now frame.now result }
    {
        self.first_match(Images::of(frame))
    }

    /// The lowest place of a filter that admits the image of the bank's scale.
    pub(crate) fn first_match(&self, images: Images) -> Option<u8>
        ensures { IsFirstAmong (filters_of self.now) (at_scale self.now.scale images.wide images.narrow) result }
    {
        let Images { wide, narrow } = images;
        let (r1, r2) = (self.r1, self.r2);
        match (self.scale, self.mode) {
            (Scale::Bits32, Mode::Mask) => first_of(&[admits(r1, r2, wide)]),
            (Scale::Bits32, Mode::List) => first_of(&[wide == r1, wide == r2]),
            (Scale::Bits16, Mode::Mask) => first_of(&[
                admits(low(r1), high(r1), narrow),
                admits(low(r2), high(r2), narrow),
            ]),
            (Scale::Bits16, Mode::List) => first_of(&[
                narrow == low(r1),
                narrow == high(r1),
                narrow == low(r2),
                narrow == high(r2),
            ]),
        }
    }

    /// How many filters the bank has.
    pub(crate) fn filter_count(&self) -> u8
        ensures value { result ≡ length (filters_of self.now) }
        ensures few { result ≤ 4 }
    {
        match (self.scale, self.mode) {
            (Scale::Bits32, Mode::Mask) => 1,
            (Scale::Bits32, Mode::List) | (Scale::Bits16, Mode::Mask) => 2,
            (Scale::Bits16, Mode::List) => 4,
        }
    }

    /// Whether its filters come before the other's wherever the two banks stand.
    pub(crate) fn outranks(&self, other: &Bank) -> bool
        ensures { IsTrue result ↔ Outranks self.now other.now }
    {
        match (self.scale, other.scale) {
            (Scale::Bits32, Scale::Bits16) => true,
            (Scale::Bits16, Scale::Bits32) => false,
            (Scale::Bits32, Scale::Bits32) | (Scale::Bits16, Scale::Bits16) => {
                self.mode == Mode::List && other.mode == Mode::Mask
            }
        }
    }

    pub(crate) fn is_active(&self) -> bool
        ensures { result ≡ self.now.active }
    {
        self.active
    }

    pub(crate) fn fifo(&self) -> u8
        ensures value { result ≡ self.now.fifo }
        ensures two { result ≤ 1 }
    {
        self.fifo
    }
}

/// The lower half of a register.
fn low(register: u32) -> u32
    ensures { result ≡ low register }
{
    register % 0x1_0000
}

/// The upper half of a register.
fn high(register: u32) -> u32
    ensures { result ≡ high register }
{
    register >> 16
}

/// Whether the image has the identifier's bit wherever the mask is 1.
fn admits(identifier: u32, mask: u32, image: u32) -> bool
    ensures { IsTrue result ↔ Admits (masked identifier mask) image }
{
    image & mask == identifier & mask
}

/// The place of the first that is true.
fn first_of(hits: &[bool]) -> Option<u8>
    requires { length hits.now ≤ 4 }
    ensures { result ≡ position_from (λ hit. hit) 0 hits.now }
{
    for (place, hit) in hits.iter().enumerate() {
        if *hit {
            return Some(place as u8);
        }
    }
    None
}
