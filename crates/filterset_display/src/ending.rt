//! How sessions end.

/// How a session ended.
#[derive(Clone, Copy, Debug, PartialEq, Eq)]
pub enum Ending {
    /// By `exit`, after `shutdown` or not.
    Exit { in_order: bool },
    /// The client wrote no more.
    InputEnded,
    /// The client wrote what is no message.
    Malformed,
}
