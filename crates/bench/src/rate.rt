//! How often a second.

use std::alloc::{AllocError, Global};
use std::time::Duration;

/// So many millions a second, with one decimal, where `count` took this long.
pub(crate) fn millions(alloc: Global, count: u64, time: Duration) -> Result<String, AllocError> {
    let nanos = time.as_nanos().max(1);
    let tenths = u128::from(count) * 10_000 / nanos;
    format!(in alloc; "{}.{} million", tenths / 10, tenths % 10)
}
