//! Tests of certificates that are written from a table: they read back.
#![tactic(auto)]

#[cfg(test)]
mod writing_tests;
