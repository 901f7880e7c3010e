//! Numbers that are written in digits.

ghost use Rattle.std.specs.Prelude.{◌≡◌, ◌≤◌, ◌<◌, ◌^◌, IfSome, length};
ghost use Rattle.gw_fields.specs.Digits.{number_in};

/// Returns the number that at most nine digits write in a radix of 2 to 16, the most significant digit first. Letters
/// are digits in either case.
///
/// `None` where a byte is not an ASCII digit of the radix. No digits write 0.
pub fn number_in(radix: u32, digits: &[u8]) -> Option<u64>
    requires low { 2 ≤ radix }
    requires high { radix ≤ 16 }
    requires few { length digits.now ≤ 9 }
    ensures value { result ≡ number_in radix digits.now }
    ensures range { IfSome result (λ n. n < radix ^ length digits.now) }
{
    let mut number: u64 = 0;
    for digit in digits {
        let Some(value) = char::from(*digit).to_digit(radix) else {
            return None;
        };
        number = number * u64::from(radix) + u64::from(value);
    }
    Some(number)
}
