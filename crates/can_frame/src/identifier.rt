//! Identifiers of both formats.

ghost use Rattle.std.specs.Prelude.{◌≡◌, ◌^◌, ◌<◌, ◌≤◌, MatchResult};
ghost use Rattle.can_frame.specs.Frames.{
  Identifier,
  standard,
  extended,
  identifier_of,
  IsIdentifier,
  is_extended_id,
  number_of,
};

use crate::error::FrameError;
use std::marker::Model;

/// An identifier: 11 bits in the standard format, 29 in the extended one (Bosch CAN Specification
/// 2.0, part B, 3.2.1 DATA FRAME, Identifier). A standard and an extended identifier of the same
/// number differ. The default is the standard identifier 0.
#[derive(Clone, Copy, Debug, Default, PartialEq, Eq)]
pub struct Id {
    number: u32,
    is_extended: bool,
}

impl Model for Id {
    ghost use Rattle.can_frame.specs.Frames.{Identifier, IsIdentifier};

    ghost Value = { Identifier };

    ghost use Rattle.can_frame.specs.IdParts.{id_view, id_parts};

    ghost view = { id_view };

    ghost invariant = { λ a. IsIdentifier (id_view a) };

    ghost inverse = { id_parts };
}

impl Id {
    /// A standard identifier, of 11 bits.
    ///
    /// `number` is 0 to 0x7FF; a larger one is refused as `IdRange`, and nothing else is.
    pub fn standard(number: u16) -> Result<Id, FrameError>
        ensures { MatchResult result
            (λ id. (number < 2 ^ 11) × (id ≡ standard number))
            (λ e. (2 ^ 11 ≤ number) × (e ≡ FrameError.IdRange)) }
    {
        if number > 0x7FF {
            return Err(FrameError::IdRange);
        }
        Ok(Id {
            number: u32::from(number),
            is_extended: false,
        })
    }

    /// An extended identifier, of 29 bits: its upper 11 are the base identifier that comes first on
    /// the bus, its lower 18 follow behind SRR and IDE.
    ///
    /// `number` is 0 to 0x1FFF_FFFF; a larger one is refused as `IdRange`, and nothing else is.
    pub fn extended(number: u32) -> Result<Id, FrameError>
        ensures { MatchResult result
            (λ id. (number < 2 ^ 29) × (id ≡ extended number))
            (λ e. (2 ^ 29 ≤ number) × (e ≡ FrameError.IdRange)) }
    {
        if number > 0x1FFF_FFFF {
            return Err(FrameError::IdRange);
        }
        Ok(Id {
            number,
            is_extended: true,
        })
    }

    /// That of this number in the extended format, or in the standard one.
    pub(crate) fn with_format(number: u32, is_extended: bool) -> Id
        requires { IsIdentifier (identifier_of is_extended number) }
        ensures { result ≡ identifier_of is_extended number }
    {
        Id {
            number,
            is_extended,
        }
    }

    /// What every identifier is: its number fits its format. Does nothing; a proof that has an `Id`
    /// calls it to learn this.
    pub fn facts(&self)
        ensures { IsIdentifier self.now }
    {
        let _number = self.number;
    }

    /// Whether the identifier is of the extended format (29 bits).
    pub fn is_extended(&self) -> bool
        ensures { result ≡ is_extended_id self.now }
    {
        self.is_extended
    }

    /// The identifier as a number: 0 to 0x7FF in the standard format, 0 to 0x1FFF_FFFF in the
    /// extended one.
    pub fn number(&self) -> u32
        ensures value { result ≡ number_of self.now }
        ensures range { result < 2 ^ 29 }
    {
        self.number
    }
}
