//! How a request ends.

/// Which of its route's lists a request ends in.
#[derive(Clone, Copy)]
pub(crate) enum End {
    /// Sent.
    Done,
    /// Aborted before its transmission began.
    Aborted,
    /// Aborted after a transmission that failed.
    Reaped,
}
