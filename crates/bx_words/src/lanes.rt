//! The control word's lanes, one a mailbox.

ghost use Rattle.std.specs.Prelude.{◌≡◌, ℕ, ◌+◌, ◌-◌, ◌<◌, ◌^◌, bit_and};
ghost use Rattle.bx_words.specs.Lanes.{lane_of, mark_of, filling, IsTransmitting};
ghost use Rattle.bx_words.specs.Lanes.{HasCount, IsCounted, LaneSet, LaneYoungest, LaneRequested};

/// One request, in the count above bit 27.
const ONE_REQUEST: u64 = 1 << 28;

/// The lane of a mailbox, 0 to 2: its eight bits of the word.
pub fn lane(word: u64, mailbox: u8) -> u64
    requires { mailbox < 3 }
    ensures { result ≡ lane_of word mailbox }
{
    (word >> (8 * mailbox)) & 0xFF
}

/// The word with an empty mailbox claimed for a route, 0 to 7: claimed, and its owner.
pub fn with_claim(word: u64, mailbox: u8, route: u8) -> u64
    requires mailbox { mailbox < 3 }
    requires route { route < 8 }
    requires empty { lane_of word mailbox ≡ 0 }
    ensures { LaneSet word mailbox (filling route) result }
{
    word | ((u64::from(route) << 5 | 1) << (8 * mailbox))
}

/// The word with the frame requested that the route filled into a mailbox. The request is the youngest of all, and it
/// is counted where bit 27 says that requests are.
pub fn with_request(word: u64, mailbox: u8, route: u8) -> u64
    requires mailbox { mailbox < 3 }
    requires route { route < 8 }
    requires filling { lane_of word mailbox ≡ filling route }
    requires count { HasCount word }
    ensures { LaneRequested word mailbox (filling route + 2) result }
{
    counted(with_youngest(word, mailbox, route))
}

/// The word with a mailbox's lane requested, and the mailbox the younger of both of its pairs.
fn with_youngest(word: u64, mailbox: u8, route: u8) -> u64
    requires mailbox { mailbox < 3 }
    requires route { route < 8 }
    requires filling { lane_of word mailbox ≡ filling route }
    ensures { LaneYoungest word mailbox (filling route + 2) result }
{
    // where an order bit is set the higher mailbox's request is the older, and else the lower one's: so the bits of
    // higher mailboxes are set, and the mask clears those of lower ones
    match mailbox {
        0 => (word | 0x0300_0002) & 0xFFFF_FFFF_FFFF_FFFF,
        1 => (word | 0x0400_0200) & 0xFFFF_FFFF_FEFF_FFFF,
        _ => (word | 0x0002_0000) & 0xFFFF_FFFF_F9FF_FFFF,
    }
}

/// The word with one request more in its count, where it has one.
fn counted(word: u64) -> u64
    requires { HasCount word }
    ensures { IsCounted word result }
{
    // bit 27 says whether requests are counted
    if (word >> 27) % 2 == 1 {
        word + ONE_REQUEST
    } else {
        word
    }
}

/// The word with a pending request scheduled.
pub fn with_schedule(word: u64, mailbox: u8) -> u64
    requires mailbox { mailbox < 3 }
    requires pending { mark_of word mailbox ≡ 3 }
    ensures { LaneSet word mailbox (lane_of word mailbox + 4) result }
{
    match mailbox {
        0 => word | 0x0000_0004,
        1 => word | 0x0000_0400,
        _ => word | 0x0004_0000,
    }
}

/// The word with a scheduled request transmitting.
pub fn with_start(word: u64, mailbox: u8) -> u64
    requires mailbox { mailbox < 3 }
    requires scheduled { mark_of word mailbox ≡ 7 }
    ensures { LaneSet word mailbox (lane_of word mailbox + 8) result }
{
    match mailbox {
        0 => word | 0x0000_0008,
        1 => word | 0x0000_0800,
        _ => word | 0x0008_0000,
    }
}

/// The word with the abort asked of a transmitting request.
pub fn with_abort(word: u64, mailbox: u8) -> u64
    requires mailbox { mailbox < 3 }
    requires transmitting { mark_of word mailbox ≡ 15 }
    ensures { LaneSet word mailbox (lane_of word mailbox + 16) result }
{
    match mailbox {
        0 => word | 0x0000_0010,
        1 => word | 0x0000_1000,
        _ => word | 0x0010_0000,
    }
}

/// What `and` keeps of a word where a mailbox is emptied: by a withdrawal, a completed transmission, or a reaped one.
pub fn lane_mask(mailbox: u8) -> u64
    requires { mailbox < 3 }
    ensures { (word : ℕ) → word < 2 ^ 64 → LaneSet word mailbox 0 (bit_and word result) }
{
    match mailbox {
        0 => 0xFFFF_FFFF_FFFF_FF00,
        1 => 0xFFFF_FFFF_FFFF_00FF,
        _ => 0xFFFF_FFFF_FF00_FFFF,
    }
}

/// What `and` keeps of a word where the transmission in a mailbox failed: its request is scheduled again, an abort that
/// was asked of it stays asked.
pub fn fail_mask(mailbox: u8) -> u64
    requires { mailbox < 3 }
    ensures { (word : ℕ) → word < 2 ^ 64 → IsTransmitting word mailbox
        → LaneSet word mailbox (lane_of word mailbox - 8) (bit_and word result) }
{
    match mailbox {
        0 => 0xFFFF_FFFF_FFFF_FFF7,
        1 => 0xFFFF_FFFF_FFFF_F7FF,
        _ => 0xFFFF_FFFF_FFF7_FFFF,
    }
}
