use thiserror::Error;

/// Why bytes are no script. Lines are numbered from 1, with blank ones counted.
#[derive(Clone, Copy, Debug, PartialEq, Eq, Error)]
pub enum ScriptFault {
    /// The first line that is not blank does not begin with `frame`, or there is none.
    #[error("no frame")]
    NoFrame,
    /// The line has none of the forms, is not allowed at its place, or names a client that there is already.
    #[error("line {line}: bad line")]
    BadLine { line: u64 },
    /// The frame's line does not name a cell with k of 1 or more.
    #[error("line {line}: bad frame")]
    BadFrame { line: u64 },
    /// No `end` follows this upload's line.
    #[error("line {line}: no end")]
    Unended { line: u64 },
    /// This line would begin one client more than [`MAX_CLIENTS`](crate::MAX_CLIENTS).
    #[error("line {line}: too many clients")]
    TooManyClients { line: u64 },
    /// This line would begin one command more than [`MAX_COMMANDS`](crate::MAX_COMMANDS) of its client.
    #[error("line {line}: too many commands")]
    TooManyCommands { line: u64 },
    #[error("out of memory")]
    Memory,
}
