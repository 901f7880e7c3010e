//! A number's decimal digits.

ghost use Rattle.std.specs.Prelude.{◌≡◌, ◌+◌, ◌/◌, ◌%◌, ◌<◌, ◌≤◌, ◌∷◌, ◌++◌, length, drop, codes, OnOk, vec_len};
ghost use Rattle.std.specs.Prelude.{vec_capacity, IsOk};
ghost use Rattle.std.specs.Fmt.{decimal};

use std::alloc::AllocError;

/// How many digits the greatest `u64` has.
const MOST_DIGITS: usize = 20;

/// The digits of 0 to 99, two a number.
static PAIRS: [u8; 200] = *b"\
    00010203040506070809\
    10111213141516171819\
    20212223242526272829\
    30313233343536373839\
    40414243444546474849\
    50515253545556575859\
    60616263646566676869\
    70717273747576777879\
    80818283848586878889\
    90919293949596979899";

/// Writes the two digits of a number below 100.
fn write_pair(digits: &mut [u8], at: usize, pair: u64)
    requires pair { pair < 100 }
    requires room { at + 2 ≤ length digits.old }
    ensures { drop at digits.new ≡ (48 + pair / 10) ∷ (48 + pair % 10) ∷ drop (at + 2) digits.old }
{
    let from = pair as usize * 2;
    digits[at] = PAIRS[from];
    digits[at + 1] = PAIRS[from + 1];
}

/// Writes the one or two digits of a number below 100, so that they end at `end`, and tells where they start.
fn write_first(digits: &mut [u8], end: usize, number: u64) -> usize
    requires few { number < 100 }
    requires room { length (decimal number) ≤ end }
    requires end { end ≤ length digits.old }
    ensures start { result ≤ end }
    ensures written { drop result digits.new ≡ decimal number ++ drop end digits.old }
{
    if number < 10 {
        digits[end - 1] = b'0' + number as u8;
        return end - 1;
    }
    write_pair(digits, end - 2, number);
    end - 2
}

/// Writes the digits of a number, two at a time, so that they end at `end`, and tells where they start.
fn write_digits(digits: &mut [u8], end: usize, number: u64) -> usize
    requires room { 20 ≤ end }
    requires end { end ≤ length digits.old }
    ensures start { result ≤ end }
    ensures written { drop result digits.new ≡ decimal number ++ drop end digits.old }
{
    let mut left = number;
    let mut at = end;
    while left >= 100 {
        at -= 2;
        write_pair(digits, at, left % 100);
        left /= 100;
    }
    write_first(digits, at, left)
}

/// Adds a number in decimal, of at most 20 digits.
pub fn push_decimal(text: &mut Vec<u8>, number: u64) -> Result<(), AllocError>
    ensures text { OnOk result (text.new.items ≡ text.old.items ++ decimal number) }
    ensures room { vec_len text.old + 20 ≤ vec_capacity text.old → IsOk result }
    ensures len { vec_len text.new ≤ vec_len text.old + 20 }
    ensures capacity { vec_capacity text.old ≤ vec_capacity text.new }
{
    let mut digits = [0; MOST_DIGITS];
    let start = write_digits(&mut digits, MOST_DIGITS, number);
    text.extend_from_slice(&digits[start..])
}

/// Adds a number in decimal, and a space.
pub fn push_decimal_and_space(text: &mut Vec<u8>, number: u64) -> Result<(), AllocError>
    ensures text { OnOk result (text.new.items ≡ text.old.items ++ (decimal number ++ codes " ")) }
    ensures room { vec_len text.old + 21 ≤ vec_capacity text.old → IsOk result }
    ensures len { vec_len text.new ≤ vec_len text.old + 21 }
    ensures capacity { vec_capacity text.old ≤ vec_capacity text.new }
{
    let mut digits = [b' '; MOST_DIGITS + 1];
    let start = write_digits(&mut digits, MOST_DIGITS, number);
    text.extend_from_slice(&digits[start..])
}
