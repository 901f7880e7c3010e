//! The CRC sequence of a text of levels.

ghost use Rattle.std.specs.Prelude.{◌≡◌, ◌^◌, ◌<◌};
ghost use Rattle.can_frame.specs.Levels.{levels};
ghost use Rattle.can_frame.specs.Crc.{IsCrc};
ghost use Rattle.can_frame.specs.Register.{next_check};

/// The generator x^15 + x^14 + x^10 + x^8 + x^7 + x^4 + x^3 + 1 without its highest coefficient.
const GENERATOR_LOW: u16 = 0x4599;

/// The register after one more level of the text: the remainder of the division so far.
fn next_register(register: u16, level: bool) -> u16
    requires { register < 2 ^ 15 }
    ensures fits { result < 2 ^ 15 }
    ensures step { levels 15 result ≡ next_check (levels 15 register) level }
{
    let shifted = (register << 1) & 0x7FFF;
    let differs = (register >> 14) ^ u16::from(level);
    // a product, for a branch here would be mispredicted at half of all levels
    shifted ^ (differs * GENERATOR_LOW)
}

/// The CRC sequence of a text of unstuffed levels, true being recessive (Bosch CAN Specification 2.0,
/// part B, 3.2.1 DATA FRAME, CRC SEQUENCE): fifteen bits, the most significant first on the bus. Of a
/// frame the text is SOF to the last data bit; any other text, the empty one included, has a CRC too.
///
/// The text followed by these fifteen levels, as a polynomial over two elements, is a multiple of the
/// generator, written as a sum of shifted copies of it.
pub fn crc15(text: &[bool]) -> u16
    ensures fits { result < 2 ^ 15 }
    ensures check { IsCrc text.now (levels 15 result) }
{
    let mut register = 0;
    for level in text {
        register = next_register(register, *level);
    }
    register
}
