use thiserror::Error;

/// Why bytes are no certificate. Lines are numbered from 1, with blank ones counted.
#[derive(Clone, Copy, Debug, PartialEq, Eq, Error)]
pub enum CertFault {
    /// The line has not the form that is asked for at its place.
    #[error("line {line}: bad line")]
    BadLine { line: u64 },
    /// This line would begin one upload more than [`MAX_CERT_UPLOADS`](crate::MAX_CERT_UPLOADS).
    #[error("line {line}: too many uploads")]
    TooManyUploads { line: u64 },
    /// No line has a fault, and the last `end` is missing.
    #[error("no end")]
    Unended,
    #[error("out of memory")]
    Memory,
}
