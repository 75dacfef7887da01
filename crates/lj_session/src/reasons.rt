use lj_blockfile::BodyFault;
use lj_upload::QuotaFull;
use lj_verify::Refusal;

/// Why an upload is refused. Reasons are tried in the order in which they stand here.
#[derive(Clone, Copy, Debug, PartialEq, Eq)]
pub enum Reason {
    /// A file has no header.
    Header,
    /// The cell is not in the frame.
    Outside,
    /// The text holds no blocks of the cell. Lines are numbered from 1 within the body.
    Body { fault: BodyFault },
    /// A header announces another number of blocks than were found.
    Count { announced: u64, found: u64 },
    /// The client may hold no such upload more.
    Quota { full: QuotaFull },
    /// The blocks don't cover, or they are too many to check.
    Check { refusal: Refusal },
}
