//! The payload words of a mailbox: a frame and the number that it is requested under.

ghost use Rattle.std.specs.Prelude.{◌≡◌, ◌<◌, ◌≤◌, ◌^◌, ℕ, ◌-◌, ◌++◌, List, length, replicate, Ok};
ghost use Rattle.can_frame.specs.Frames.{FrameValue, IsFrameValue, AllBytes, data_bytes};
ghost use Rattle.can_frame.specs.Fields.{is_remote, length_code};
ghost use Rattle.can_frame.specs.Keys.{key_of};
ghost use Rattle.bx_words.specs.Payloads.{head_of, little_endian, bytes_word, IsHeadOf, IsHead, ArePacked};

use can_frame::{Frame, FrameError, Id};

/// Of the head word: the lowest bit of each of its fields.
const EXTENDED: u64 = 1 << 29;

const REMOTE: u64 = 1 << 30;

const LENGTH_CODE: u64 = 1 << 31;

const NUMBER: u64 = 1 << 35;

/// The head word and the bytes word of a frame that is requested under a number of at most 24 bits.
pub fn pack(frame: &Frame, number: u32) -> (u64, u64)
    requires { number < 2 ^ 24 }
    ensures { ArePacked frame.now number result.0 result.1 }
{
    frame.facts();
    (head_of(frame, number), bytes_word(frame))
}

fn head_of(frame: &Frame, number: u32) -> u64
    requires { number < 2 ^ 24 }
    ensures { IsFrameValue frame.now → result ≡ head_of frame.now number }
{
    frame.id().facts();
    let extended = if frame.id().is_extended() {
        EXTENDED
    } else {
        0
    };
    let remote = if frame.is_remote() { REMOTE } else { 0 };
    u64::from(frame.id().number())
        + extended
        + remote
        + u64::from(frame.dlc()) * LENGTH_CODE
        + u64::from(number) * NUMBER
}

fn bytes_word(frame: &Frame) -> u64
    ensures { result ≡ bytes_word frame.now }
{
    u64::from_le_bytes(padded(frame.bytes()))
}

/// The bytes, and zeros behind them.
fn padded(bytes: &[u8]) -> [u8; 8]
    requires { length bytes.now ≤ 8 }
    ensures { result ≡ bytes.now ++ replicate (8 - length bytes.now) 0 }
{
    let mut cells = [0u8; 8];
    cells[..bytes.len()].copy_from_slice(bytes);
    cells
}

/// The frame and the number of which these are the two words, as `pack` gave them.
pub fn unpack(head: u64, bytes: u64) -> (Frame, u32)
    requires { (f : FrameValue) × ((n : ℕ) × ArePacked f n head bytes) }
    ensures { (f : FrameValue) (n : ℕ) → ArePacked f n head bytes → (result.0 ≡ f) × (result.1 ≡ n) }
{
    (frame_in(head, bytes), number_in(head))
}

fn frame_in(head: u64, bytes: u64) -> Frame
    requires { (f : FrameValue) × ((n : ℕ) × ArePacked f n head bytes) }
    ensures { (f : FrameValue) (n : ℕ) → ArePacked f n head bytes → result ≡ f }
{
    let id = id_in(head);
    let code = code_in(head);
    let frame = if is_remote(head) {
        Frame::remote(id, code)
    } else {
        data_frame(id, code, bytes)
    };
    frame.unwrap_or_default()
}

/// The frame with the first so many of the word's bytes, at most eight.
fn data_frame(id: Id, code: u8, bytes: u64) -> Result<Frame, FrameError>
    requires { code ≤ 8 }
    ensures { (all : List ℕ) → AllBytes all → code ≡ length all → bytes ≡ little_endian all
        → result ≡ Ok (record { id = id; content = data_bytes all }) }
{
    let cells = bytes.to_le_bytes();
    Frame::with_bytes(id, &cells[..usize::from(code)])
}

/// The arbitration key of the frame whose head word this is, as `Frame::arbitration_key` gives it: of two frames that
/// start at once, that of the lower key wins.
pub fn key(head: u64) -> u32
    requires { IsHead head }
    ensures { (f : FrameValue) (n : ℕ) → IsHeadOf f n head → result ≡ key_of f }
{
    id_in(head).arbitration_key(is_remote(head))
}

fn id_in(head: u64) -> Id
    requires { IsHead head }
    ensures { (f : FrameValue) (n : ℕ) → IsHeadOf f n head → result ≡ f.id }
{
    let number = head % EXTENDED;
    let id = if head / EXTENDED % 2 == 1 {
        Id::extended(number as u32)
    } else {
        Id::standard(number as u16)
    };
    id.unwrap_or_default()
}

fn is_remote(head: u64) -> bool
    ensures { (f : FrameValue) (n : ℕ) → IsHeadOf f n head → result ≡ is_remote f.content }
{
    head / REMOTE % 2 == 1
}

fn code_in(head: u64) -> u8
    requires { IsHead head }
    ensures few { result ≤ 8 }
    ensures value { (f : FrameValue) (n : ℕ) → IsHeadOf f n head → result ≡ length_code f.content }
{
    (head / LENGTH_CODE % 16) as u8
}

fn number_in(head: u64) -> u32
    requires { IsHead head }
    ensures { (f : FrameValue) (n : ℕ) → IsHeadOf f n head → result ≡ n }
{
    (head / NUMBER) as u32
}
