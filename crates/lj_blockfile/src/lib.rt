//! Block files: blocks read from lines and written as lines.
#![tactic(auto)]

mod ascending;
mod fault_texts;
mod faults;
mod headers;
mod laws;
mod read;
mod write;

pub use fault_texts::{put_body_fault, put_line_fault};
pub use faults::{BodyFault, LineFault};
pub use headers::{Header, NoHeader, read_header, write_file};
pub use laws::{block_line_law, file_law, one_reading_law, written_law};
pub use read::{read_block, read_blocks};
pub use write::{put_blocks, write_block};
