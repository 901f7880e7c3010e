//! Which of two frames wins on the bus.
ghost use Rattle.std.specs.Prelude.{◌≡◌};
ghost use Rattle.can_frame.specs.Keys.{key_by, key_of};

use crate::frame::Frame;
use crate::identifier::Id;

impl Id {
    /// The arbitration field of a frame with this identifier, as `Frame::arbitration_key` says.
    /// `is_remote` tells whether RTR is recessive.
    pub fn arbitration_key(&self, is_remote: bool) -> u32
        ensures { result ≡ key_by self.now is_remote }
    {
        self.facts();
        let number = self.number();
        let rtr = if is_remote { 1 } else { 0 };
        if self.is_extended() {
            // SRR and IDE, both recessive, stand between the two parts of the identifier
            number / 0x4_0000 * 0x20_0000 + 0x18_0000 + number % 0x4_0000 * 2 + rtr
        } else {
            number * 0x20_0000 + rtr * 0x10_0000
        }
    }
}

impl Frame {
    /// The arbitration field with IDE as a number of 32 bits, its first level the highest bit (Bosch
    /// CAN Specification 2.0, part B, 3.2.1 DATA FRAME, ARBITRATION FIELD): of two frames that start
    /// at once, that of the lower number wins.
    ///
    /// A standard frame has its identifier in bits 31 to 21, RTR in bit 20 and zeros behind. An
    /// extended one has the upper 11 bits of its identifier in bits 31 to 21, SRR and IDE, both 1, in
    /// bits 20 and 19, the lower 18 bits in bits 18 to 1, and RTR in bit 0.
    pub fn arbitration_key(&self) -> u32
        ensures { result ≡ key_of self.now }
    {
        let id = self.id();
        id.arbitration_key(self.is_remote())
    }
}
