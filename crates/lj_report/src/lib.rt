//! The report: each cell of a frame with its bound and the number that no covering is below, as text and as JSON.
#![tactic(auto)]

mod cells;
mod json;
mod laws;
#[cfg(test)]
mod tests;
mod text;

pub use cells::ReportCells;
pub use json::report_json;
pub use laws::{optimal_law, report_cells_law};
pub use text::report_text;
