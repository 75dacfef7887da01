//! A `History` is the list of all changes of a table's bounds, in their order. The list exists in proofs alone: what
//! runs is one word in memory, which is always 0. It lies beside the table behind the lock, and each change of a bound
//! is appended to it. A worker that copied the table holds a `Reader`, whose list is the beginning that the copy has.
//! When the reader comes back, its list is proved to begin the history's, so the changes after it are those that the
//! copy lacks.
#![tactic(auto)]

mod change;
mod history;
mod steps;
#[cfg(test)]
mod tests;

pub use change::Change;
pub use history::{History, Reader};
