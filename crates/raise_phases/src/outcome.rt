//! What a table of call sites says.

/// What becomes of an exception at an address.
#[derive(Clone, Copy, Debug, PartialEq, Eq)]
pub enum Verdict {
    /// No call site has the address: nothing may pass here.
    Terminate,
    /// It goes on to the caller.
    Continue,
    /// What stands at the pad is done first, and then it goes on.
    Cleanup { pad: u64 },
    /// It is caught at the pad, which is told the filter.
    Handler { pad: u64, filter: u64 },
}
