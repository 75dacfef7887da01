//! Tests that cross crates: worked values of streams, texts, ranks, maps and block files.
#![tactic(auto)]

#[cfg(test)]
mod base;
#[cfg(test)]
mod bitmap;
#[cfg(test)]
mod blockfile;
#[cfg(test)]
mod rank;
#[cfg(test)]
mod text;
