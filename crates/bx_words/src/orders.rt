//! Which request goes first.

ghost use Rattle.std.specs.Prelude.{◌≡◌, ℕ, ◌<◌, ◌≤◌, ◌⊎◌, true, false, IfSome};
ghost use Rattle.std.specs.Prelude.{IfNone, IsSomeAnd, MatchOption, MatchBool};
ghost use Rattle.bx_words.specs.Lanes.{IsRequested, IsOlder};
ghost use Rattle.bx_words.specs.Orders.{IsOldest, HasNoOldest, GoesBefore, IsLeastOf, NoneRequested};

use crate::lanes::lane;

/// Whether a mailbox holds a request.
fn is_requested(word: u64, mailbox: u8) -> bool
    requires { mailbox < 3 }
    ensures { MatchBool result (IsRequested word mailbox) (¬ IsRequested word mailbox) }
{
    lane(word, mailbox) % 32 >= 3
}

/// Whether the request in one mailbox is older than that in another, by the order bits.
fn is_older(word: u64, one: u8, other: u8) -> bool
    requires { (one < 3) × (other < 3) }
    ensures { MatchBool result (IsOlder word one other) (¬ IsOlder word one other) }
{
    let bit = (word >> (23 + one + other)) & 1;
    if one < other { bit == 0 } else { bit == 1 }
}

/// Whether a mailbox, if it holds a request at all, holds none that is older than that in `mailbox`.
fn is_behind(word: u64, mailbox: u8, other: u8) -> bool
    requires { (mailbox < 3) × (other < 3) }
    ensures { MatchBool result (IsRequested word other → IsOlder word mailbox other)
        (¬ (IsRequested word other → IsOlder word mailbox other)) }
{
    !is_requested(word, other) || is_older(word, mailbox, other)
}

/// Whether a mailbox holds a request that is older than the one in each of the two others that holds one.
fn is_oldest(word: u64, mailbox: u8, second: u8, third: u8) -> bool
    requires { (mailbox < 3) × (second < 3) × (third < 3) }
    ensures { MatchBool result
        (IsRequested word mailbox × (IsRequested word second → IsOlder word mailbox second)
        × (IsRequested word third → IsOlder word mailbox third))
        (IsRequested word mailbox → (IsRequested word second → IsOlder word mailbox second)
        → (IsRequested word third → IsOlder word mailbox third) → ⊥) }
{
    is_requested(word, mailbox)
        && is_behind(word, mailbox, second)
        && is_behind(word, mailbox, third)
}

/// The mailbox, 0 to 2, of the oldest request, by the order bits: it is older than that in each other mailbox. `None`
/// where there is none.
pub fn oldest(word: u64) -> Option<u8>
    ensures { MatchOption result (HasNoOldest word) (IsOldest word) }
{
    if is_oldest(word, 0, 1, 2) {
        return Some(0);
    }
    if is_oldest(word, 1, 0, 2) {
        return Some(1);
    }
    if is_oldest(word, 2, 0, 1) {
        return Some(2);
    }
    None
}

/// The mailbox, 0 to 2, of the request with the least (key, mailbox), where `keys` are the arbitration keys of the
/// three mailboxes' frames; what a mailbox without a request has for a key doesn't matter. `None` where there is no
/// request.
pub fn least(word: u64, keys: [u32; 3]) -> Option<u8>
    ensures some { IfSome result (IsLeastOf 3 word keys) }
    ensures none { IfNone result (NoneRequested 3 word) }
{
    let mut best = None;
    for mailbox in 0..3u8 {
        if is_requested(word, mailbox) && is_less(&keys, mailbox, best) {
            best = Some(mailbox);
        }
    }
    best
}

/// Whether a mailbox's key is less than that of the best so far, a lower mailbox.
fn is_less(keys: &[u32; 3], mailbox: u8, best: Option<u8>) -> bool
    requires mailbox { mailbox < 3 }
    requires best { IfSome best (λ b. b < mailbox) }
    ensures yes { result ≡ true → IfSome best (λ b. GoesBefore keys.now mailbox b) }
    ensures no { result ≡ false → IsSomeAnd best (λ b. GoesBefore keys.now b mailbox) }
{
    match best {
        None => true,
        Some(best) => keys[usize::from(mailbox)] < keys[usize::from(best)],
    }
}
