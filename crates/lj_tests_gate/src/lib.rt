//! Tests of runs with threads: worked scripts, and what no contract says of clients and workers.
#![tactic(auto)]

#[cfg(test)]
mod meeting;
#[cfg(test)]
mod scripts;
#[cfg(test)]
mod serving;
#[cfg(test)]
mod two_runs;
