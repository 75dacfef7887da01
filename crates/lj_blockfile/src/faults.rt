use thiserror::Error;

/// Why a line is no block line. Points are numbered from 1 here, as in the line.
#[derive(Clone, Copy, Debug, PartialEq, Eq, Error)]
pub enum LineFault {
    /// The token at this column, from 1, is not a number.
    #[error("column {column}: not a number")]
    NotNumber { column: u64 },
    /// The number is no point.
    #[error("point {value} is out of range")]
    PointRange { value: u64 },
    #[error("point {point} is repeated")]
    Repeat { point: u64 },
    /// The line has too few tokens; their number.
    #[error("too few points: {count}")]
    Short { count: u64 },
    /// The line has too many tokens; their number.
    #[error("too many points: {count}")]
    Long { count: u64 },
}

/// Why a text holds no blocks.
#[derive(Clone, Copy, Debug, PartialEq, Eq, Error)]
pub enum BodyFault {
    /// More than `MAX_BLOCKS` lines are not blank; their number.
    #[error("{n} blocks are too many")]
    Blocks { n: u64 },
    /// The first line with a fault, numbered from 1 with blank lines counted.
    #[error("line {number}: {fault}")]
    Line { number: u64, fault: LineFault },
    #[error("out of memory")]
    Memory,
}
